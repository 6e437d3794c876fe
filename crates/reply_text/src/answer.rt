//! Answers in JSON.

ghost use Rattle.std.specs.Prelude.{◌≡◌, IfOk};
ghost use Rattle.serde_json.specs.View.{view};
ghost use Rattle.reply_text.specs.Answers.{household_data, due_day_data, targets_data, answer_data, answer_text};

use crate::members::one;
use crate::record::record_value;
use crate::values::next_member;
use crate::voucher::voucher_value;
use json_form::{Exact, Members, Writer, array_by};
use office_answers::{Admissions, Answer, DueDay, HouseholdSummary};
use plain_data::{NoMemory, Text};
use std::alloc::Global;

/// The text of the answer to a question.
pub fn text_of_answer(alloc: Global, answer: &Answer) -> Result<Text, NoMemory>
    ensures { IfOk result (λ text. text ≡ answer_text answer.now) }
{
    answer_value(alloc, answer)?.text(alloc)
}

fn answer_value(alloc: Global, answer: &Answer) -> Result<Exact, NoMemory>
    ensures { IfOk result (λ exact. view exact.value ≡ answer_data answer.now) }
{
    match answer {
        Answer::Household(summary) => household_value(alloc, summary),
        Answer::Record(held) => record_value(alloc, held),
        Answer::Next(next) => Ok(next_member(alloc, *next)?.done()),
        Answer::Voucher(voucher) => voucher_value(alloc, voucher),
        Answer::Paid(paid) => Ok(one(alloc, "paid", paid)?.done()),
        Answer::Due(due) => {
            let due = array_by(alloc, due.as_slice(), &DueDays)?;
            Ok(Members::new(alloc).with_value("due", due)?.done())
        }
        Answer::Targets(targets) => targets_value(alloc, targets),
    }
}

fn household_value(alloc: Global, summary: &HouseholdSummary) -> Result<Exact, NoMemory>
    ensures { IfOk result (λ exact. view exact.value ≡ household_data summary.now) }
{
    let members = Members::new(alloc)
        .with("household", &summary.household)?
        .with("live", &summary.live)?
        .with("name", &summary.name)?
        .with("newest", &summary.newest)?;
    Ok(members.done())
}

#[derive(Drop)]
struct DueDays;

impl Writer for DueDays {
    type Row = DueDay;

    ghost written = { λ _. due_day_data };

    fn write(&self, alloc: Global, due: &DueDay) -> Result<Exact, NoMemory> {
        let members = Members::new(alloc)
            .with("due", &due.day)?
            .with("household", &due.household)?;
        Ok(members.done())
    }
}

fn targets_value(alloc: Global, targets: &Admissions) -> Result<Exact, NoMemory>
    ensures { IfOk result (λ exact. view exact.value ≡ targets_data targets.now) }
{
    let members = Members::new(alloc)
        .with("admitted", &targets.admitted)?
        .with("expected", &targets.expected)?
        .with("extremely_low", &targets.extremely_low)?
        .with("first_day", &targets.first_day)?
        .with("open", &targets.opened)?;
    Ok(members.done())
}
