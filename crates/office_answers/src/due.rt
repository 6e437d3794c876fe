//! Which annual certifications are due, seen from a day.

ghost use Rattle.std.specs.Prelude.{◌≡◌, ◌≤◌, All, IfOk, IfSome};
ghost use Rattle.record_history.specs.Held.{records_of};
ghost use Rattle.due_dates.specs.Stale.{ends_assistance};
ghost use Rattle.office_answers.specs.Answered.{Answers};
ghost use Rattle.office_answers.specs.DueList.{is_assisted_on, horizon, due_of, due_days, due_list, due_answer};

use crate::{Answer, Asked, DueDay};
use admission_order::office_register::Register;
use admission_order::office_step::Refusal;
use days_core::Day;
use plain_data::{Listed, NoMemory};
use record_history::{Dates, History, Kind, Record};
use rent_table::Plan;
use std::alloc::Global;

const DAYS_AHEAD: u32 = 120;

pub fn due_answer(alloc: Global, register: &Register, day: Day) -> Result<Answer, Asked>
    ensures { Answers (due_answer register.now.known day) result }
{
    if register.plan().is_none() {
        return Err(Asked::Refused(Refusal::NoPlan));
    }
    let dues = due_list(alloc, register, day)?;
    Ok(Answer::Due(Listed::new(dues)))
}

/// What is due, in the order of its days, and of one day in that of the households.
fn due_list(alloc: Global, register: &Register, day: Day) -> Result<Vec<DueDay>, NoMemory>
    ensures { IfOk result (λ dues. dues.items ≡ due_list register.now.known.households day) }
{
    let mut dues = due_days(alloc, register, day)?;
    dues.sort_by_key(|due| due.day.number())?;
    Ok(dues)
}

fn due_days(alloc: Global, register: &Register, day: Day) -> Result<Vec<DueDay>, NoMemory>
    ensures all { IfOk result (λ dues. dues.items ≡ due_days register.now.known.households day) }
    ensures soon { IfOk result (λ dues. All (λ due. due.day ≤ horizon day) dues.items) }
{
    let mut dues = Vec::new(alloc);
    for place in 0..register.households() {
        if let Some(due) = due_of(register, day, place + 1) {
            dues.push(due)?;
        }
    }
    Ok(dues)
}

/// When the household is due, where it is assisted on the day. Most aren't due soon, so that is asked first.
fn due_of(register: &Register, day: Day, household: u32) -> Option<DueDay>
    ensures value { result ≡ due_of register.now.known.households day household }
    ensures soon { IfSome result (λ due. due.day ≤ horizon day) }
{
    let due = register.next_annual(household)?;
    if due.number() <= day.number() + DAYS_AHEAD
        && is_assisted_on(register.history(), household, day)
    {
        Some(DueDay {
            day: due,
            household,
        })
    } else {
        None
    }
}

fn is_assisted_on(history: &History, household: u32, day: Day) -> bool
    ensures { result ≡ is_assisted_on (records_of history.now.households household) day }
{
    match history.in_force(household, day) {
        Some(held) => !ends_assistance(held.kind),
        None => false,
    }
}

fn ends_assistance(kind: Kind) -> bool
    ensures { result ≡ ends_assistance kind }
{
    match kind {
        Kind::MO | Kind::TM => true,
        Kind::MI | Kind::IC | Kind::AR | Kind::IR | Kind::GR | Kind::UT | Kind::WD => false,
    }
}
