//! The call that a row of a book came by.

ghost use Rattle.std.specs.Prelude.{◌≡◌, true, IfOk, IfSome};
ghost use Rattle.book_rows.specs.Fit.{is_fit};
ghost use Rattle.office_step.specs.Step.{is_fit_call};
ghost use Rattle.office_step.specs.Valid.{call_of, fit_call};
ghost use Rattle.book_replay.specs.Texts.{IsTextOf};

use book_rows::{ActRow, Command};
use command_text::{BodyFault, command_of_body};
use office_step::Call;
use plain_data::NoMemory;
use std::alloc::Global;

/// The call that the row is of, where its clerk, request and body make one.
pub fn call_of(alloc: Global, row: &ActRow) -> Result<Option<Call>, NoMemory>
    ensures call { IfOk result (λ call. call ≡ call_of row.now) }
    ensures fit { IfOk result (λ call. IfSome call (λ call. is_fit_call call ≡ true)) }
    ensures text { IfOk result (λ call. IfSome call (λ call. IsTextOf call.command row.now.body)) }
{
    match command_of_body(alloc, row.body.as_bytes()) {
        Ok(command) => Ok(fit_call(row.clerk, row.request, command)),
        Err(BodyFault::BadBody) => Ok(None),
        Err(BodyFault::NoMemory) => Err(NoMemory),
    }
}

// The call of a fit command, where the clerk and the request are of the right range too.
fn fit_call(clerk: u32, request: u32, command: Command) -> Option<Call>
    requires { is_fit command ≡ true }
    ensures call { result ≡ fit_call (record { clerk = clerk; request = request; command = command }) }
    ensures fit { IfSome result (λ call. is_fit_call call ≡ true) }
    ensures asked { IfSome result (λ call. call.command ≡ command) }
{
    if 1 <= clerk && clerk <= 9_999 && 1 <= request {
        Some(Call {
            clerk,
            request,
            command,
        })
    } else {
        None
    }
}
