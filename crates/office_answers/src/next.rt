//! The answer to who is next.

ghost use Rattle.std.specs.Prelude.{◌≡◌};
ghost use Rattle.office_answers.specs.Answering.{next_answer};

use crate::Answer;
use admission_order::office_register::Register;
use admission_order::office_step::{Named, Refusal};
use admission_order::{next_for, unit_in};
use days_core::Day;
use rent_table::{Plan, Unit};
use wait_list::Candidate;

/// Who is next for a unit on a day.
pub fn next_answer(register: &Register, unit: u32, day: Day) -> Result<Answer, Refusal>
    ensures { result ≡ next_answer register.now.known unit day }
{
    let Some(plan) = register.plan() else {
        return Err(Refusal::NoPlan);
    };
    match unit_in(register, unit) {
        Some(row) => Ok(Answer::Next(next_for(register, plan, row, day))),
        None => Err(Refusal::NoSuch {
            what: Named::Unit,
            id: unit,
        }),
    }
}
