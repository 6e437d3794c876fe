//! A command, read of its text.

ghost use Rattle.std.specs.Prelude.{◌≡◌, ◌≢◌, true, Some, None, IfOk};
ghost use Rattle.serde_json.specs.View.{view};
ghost use Rattle.book_rows.specs.Fit.{is_fit};
ghost use Rattle.book_rows.specs.declared.command.Command.{Command};
ghost use Rattle.command_forms.specs.Holdable.{IsHoldable};
ghost use Rattle.command_forms.specs.Commands.{command_at, accepted, command_from, body_of, command_in};

use crate::command::command_of_value;
use book_rows::Command;
use command_body::body_of_command;
use json_form::{FormFault, value_of_bytes};
use plain_data::NoMemory;
use serde_json::Value;
use std::alloc::Global;

/// Why a text was not read as a command's.
#[derive(Clone, Copy, Debug, PartialEq, Eq)]
pub enum BodyFault {
    /// It is no command's text.
    BadBody,
    /// Memory ran out.
    NoMemory,
}

impl From<NoMemory> for BodyFault {
    ghost use Rattle.command_text.specs.declared.body.BodyFault.TheVariants as fault;

    ghost from_gives = { λ _ why. why ≡ fault.NoMemory };

    fn from(_error: NoMemory) -> BodyFault {
        BodyFault::NoMemory
    }
}

/// The command whose text this is.
pub fn command_of_body(alloc: Global, body: &[u8]) -> Result<Command, BodyFault>
    ensures command { IfOk result (λ asked. command_in body.now ≡ Some asked) }
    ensures fit { IfOk result (λ asked. is_fit asked ≡ true) }
    ensures own { IfOk result (λ asked. body_of asked ≡ body.now) }
    ensures bad_body { result ≡ Err BodyFault.BadBody → command_in body.now ≡ None }
    ensures of_no_command { result ≡ Err BodyFault.BadBody → (asked : Command) → is_fit asked ≡ true → IsHoldable asked → body_of asked ≢ body.now }
{
    own_command(alloc, body)
}

fn own_command(alloc: Global, body: &[u8]) -> Result<Command, BodyFault>
    ensures command { IfOk result (λ asked. command_in body.now ≡ Some asked) }
    ensures fit { IfOk result (λ asked. is_fit asked ≡ true) }
    ensures own { IfOk result (λ asked. body_of asked ≡ body.now) }
    ensures bad_body { result ≡ Err BodyFault.BadBody → command_in body.now ≡ None }
{
    let asked = command_of_bytes(alloc, body)?;
    match fault_of_text(alloc, &asked, body) {
        None => Ok(asked),
        Some(fault) => {
            asked.let_go();
            Err(fault)
        }
    }
}

/// Why the text isn't the command's own, if it isn't.
fn fault_of_text(alloc: Global, command: &Command, body: &[u8]) -> Option<BodyFault>
    ensures own { result ≡ None → body_of command.now ≡ body.now }
    ensures bad_body { result ≡ Some BodyFault.BadBody → body_of command.now ≢ body.now }
{
    match body_of_command(alloc, command) {
        Ok(own) => {
            if own.as_bytes() == body {
                None
            } else {
                Some(BodyFault::BadBody)
            }
        }
        Err(NoMemory) => Some(BodyFault::NoMemory),
    }
}

fn command_of_bytes(alloc: Global, bytes: &[u8]) -> Result<Command, BodyFault>
    ensures command { IfOk result (λ asked. command_from bytes.now ≡ Some asked) }
    ensures fit { IfOk result (λ asked. is_fit asked ≡ true) }
    ensures bad_body { result ≡ Err BodyFault.BadBody → command_from bytes.now ≡ None }
{
    match value_of_bytes(alloc, bytes) {
        Ok(value) => command_of_read(alloc, &value),
        Err(FormFault::BadField(_)) => Err(BodyFault::BadBody),
        Err(FormFault::NoMemory) => Err(BodyFault::NoMemory),
    }
}

fn command_of_read(alloc: Global, value: &Value) -> Result<Command, BodyFault>
    ensures command { IfOk result (λ asked. accepted (command_at (view value.now)) ≡ Some asked) }
    ensures fit { IfOk result (λ asked. is_fit asked ≡ true) }
    ensures bad_body { result ≡ Err BodyFault.BadBody → accepted (command_at (view value.now)) ≡ None }
{
    match command_of_value(alloc, value) {
        Ok(asked) => Ok(asked),
        Err(FormFault::BadField(_)) => Err(BodyFault::BadBody),
        Err(FormFault::NoMemory) => Err(BodyFault::NoMemory),
    }
}
