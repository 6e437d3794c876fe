//! A question is answered by what an office knows.

ghost use Rattle.std.specs.Prelude.{◌≡◌, ◌≤◌, length, Result};
ghost use Rattle.office_answers.specs.Answered.{Answers};
ghost use Rattle.office_answers.specs.Answering.{answer_by};
ghost use Rattle.record_history.specs.Limits.{most_lines};

use crate::due::due_answer;
use crate::fiscal_year::targets_answer;
use crate::households::{household_answer, record_answer};
use crate::next::next_answer;
use crate::vouchers::{paid_answer, voucher_answer};
use crate::{Answer, Asked, BookLines, Question};
use admission_order::office_register::Register;
use admission_order::office_step::Refusal;
use std::alloc::Global;

/// The answer to a question, by what an office knows and by the lines of all closings, at most 4,000,000.
pub fn answer_to(
    alloc: Global,
    register: &Register,
    lines: &BookLines,
    question: &Question,
) -> Result<Answer, Asked>
    requires { length lines.now ≤ most_lines }
    ensures { Answers (answer_by register.now.known lines.now question.now) result }
{
    match *question {
        Question::Household { household } => household_answer(alloc, register, household),
        Question::Record { household, target } => without_memory(record_answer(
            register, household, target,
        )),
        Question::Next { unit, day } => without_memory(next_answer(register, unit, day)),
        Question::Voucher { month } => voucher_answer(alloc, register, lines, month),
        Question::Paid { household, month } => paid_answer(
            alloc, register, lines, household, month,
        ),
        Question::Due { day } => due_answer(alloc, register, day),
        Question::Targets { day } => without_memory(targets_answer(register, day)),
    }
}

/// An answer that took no memory.
fn without_memory(answer: Result<Answer, Refusal>) -> Result<Answer, Asked>
    ensures { Answers answer result }
{
    answer.map_err(Asked::Refused)
}
