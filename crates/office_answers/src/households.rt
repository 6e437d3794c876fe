//! What is asked of one household.

ghost use Rattle.std.specs.Prelude.{◌≡◌, IfOk};
ghost use Rattle.office_answers.specs.Answered.{Answers};
ghost use Rattle.office_answers.specs.Households.{name_in, live_numbers, summary_of, household_answer, record_answer};

use crate::{Answer, Asked, HouseholdSummary};
use admission_order::office_refusals::no_household;
use admission_order::office_register::Register;
use admission_order::office_step::{Named, Refusal};
use plain_data::{Listed, NoMemory, Text};
use record_history::{Dates, Record, is_live};
use std::alloc::Global;

pub fn household_answer(alloc: Global, register: &Register, household: u32) -> Result<Answer, Asked>
    ensures { Answers (household_answer register.now.known household) result }
{
    if let Some(refusal) = no_household(register.households(), household) {
        return Err(Asked::Refused(refusal));
    }
    let summary = summary_of(alloc, register, household)?;
    Ok(Answer::Household(summary))
}

fn summary_of(
    alloc: Global,
    register: &Register,
    household: u32,
) -> Result<HouseholdSummary, NoMemory>
    ensures { IfOk result (λ summary. summary ≡ summary_of register.now.known household) }
{
    let history = register.history();
    Ok(HouseholdSummary {
        household,
        name: name_in(alloc, register, household)?,
        live: Listed::new(live_numbers(alloc, history.records(household))?),
        newest: history.newest(household),
    })
}

/// The household's name, and the empty one where there is no such household.
fn name_in(alloc: Global, register: &Register, household: u32) -> Result<Text, NoMemory>
    ensures { IfOk result (λ name. name ≡ name_in register.now.known household) }
{
    match register.household_name(household) {
        Some(name) => Ok(Text::new(name.as_bytes().to_vec(alloc)?)),
        None => Ok(Text::new(Vec::new(alloc))),
    }
}

fn live_numbers(alloc: Global, records: &[Record]) -> Result<Vec<u32>, NoMemory>
    ensures { IfOk result (λ numbers. numbers.items ≡ live_numbers records.now) }
{
    let numbers = records
        .iter()
        .filter(|held| is_live(records, held))
        .map(|held| held.number)
        .collect(alloc)?;
    Ok(numbers)
}

pub fn record_answer(register: &Register, household: u32, number: u32) -> Result<Answer, Refusal>
    ensures { result ≡ record_answer register.now.known household number }
{
    if let Some(refusal) = no_household(register.households(), household) {
        return Err(refusal);
    }
    match register.history().record_at(household, number) {
        Some(held) => Ok(Answer::Record(*held)),
        None => Err(Refusal::NoSuch {
            what: Named::Record,
            id: number,
        }),
    }
}
