//! Calls, read of JSON.

ghost use Rattle.std.specs.Prelude.{◌≡◌, true, IfOk};
ghost use Rattle.serde_json.specs.View.{view};
ghost use Rattle.json_form.specs.Gives.{Gives};
ghost use Rattle.book_rows.specs.Fit.{is_fit};
ghost use Rattle.command_forms.specs.Commands.{command_at};
ghost use Rattle.office_step.specs.Step.{is_fit_call};
ghost use Rattle.json_front.specs.Calls.{call_fields, call_at, call_from};

use book_rows::Command;
use command_text::command_of_value;
use json_form::{Form, FormFault, closed, field_by, number_field, object, value_of_bytes};
use office_step::Call;
use serde_json::Value;
use std::alloc::Global;

/// Reads the body of a request, which is a call. `BadField` has the path of the first place that doesn't fit, the empty
/// one where the bytes are no JSON.
pub fn call_of_bytes(alloc: Global, bytes: &[u8]) -> Result<Call, FormFault>
    ensures exact { Gives (λ call. call) result (call_from bytes.now) }
    ensures fit { IfOk result (λ call. is_fit_call call ≡ true) }
{
    let value = value_of_bytes(alloc, bytes)?;
    call_of(alloc, &value)
}

#[tactic(auto, unfolding(crate::specs::Calls::call_at))]
fn call_of(alloc: Global, value: &Value) -> Result<Call, FormFault>
    ensures exact { Gives (λ call. call) result (call_at (view value.now)) }
    ensures fit { IfOk result (λ call. is_fit_call call ≡ true) }
{
    object(alloc, value)?;
    let call = call_fields(alloc, value)?;
    closed(alloc, value, &["clerk", "request", "act"], call)
}

/// Reads the fields of a call, in an object that may have others.
#[tactic(auto, unfolding(crate::specs::Calls::call_fields))]
pub fn call_fields(alloc: Global, value: &Value) -> Result<Call, FormFault>
    ensures exact { Gives (λ call. call) result (call_fields (view value.now)) }
    ensures fit { IfOk result (λ call. is_fit_call call ≡ true) }
{
    let clerk = number_field(alloc, value, "clerk", 1, 9_999)?;
    let request = number_field(alloc, value, "request", 1, u32::MAX)?;
    let command = field_by(alloc, value, "act", &Act)?;
    Ok(Call {
        clerk,
        request,
        command,
    })
}

/// A command.
#[derive(Drop)]
struct Act;

impl Form for Act {
    type Read = Command;

    ghost form = { λ _. command_at };

    ghost passes = { λ _. is_fit };

    fn read(&self, alloc: Global, value: &Value) -> Result<Command, FormFault> {
        command_of_value(alloc, value)
    }
}
