//! The text of a command.

ghost use Rattle.std.specs.Prelude.{◌≡◌, true, Some, IfOk};
ghost use Rattle.book_rows.specs.Fit.{is_fit};
ghost use Rattle.command_forms.specs.Commands.{body_of, command_in};

use crate::command::exact_of;
use book_rows::Command;
use command_forms::held_command;
use plain_data::{NoMemory, Text};
use std::alloc::Global;

/// The text of a command: compact JSON, with the members of each object in the byte order of their names.
pub fn body_of_command(alloc: Global, command: &Command) -> Result<Text, NoMemory>
    ensures body { IfOk result (λ body. body ≡ body_of command.now) }
    ensures read_again { IfOk result (λ body. is_fit command.now ≡ true → command_in body ≡ Some command.now) }
{
    held_command(command);
    let body = text_of_command(alloc, command)?;
    Ok(body)
}

fn text_of_command(alloc: Global, command: &Command) -> Result<Text, NoMemory>
    ensures { IfOk result (λ body. body ≡ body_of command.now) }
{
    let mut bytes = exact_of(alloc, command)?.text(alloc)?.into_bytes();
    // A book holds its texts for good, and a writer leaves up to as much room again.
    bytes.shrink_to_fit();
    Ok(Text::new(bytes))
}
