//! The two years of the office, month by month.

ghost use Rattle.std.specs.Prelude.{◌≡◌, ◌≤◌, ◌+◌, ◌++◌, IfOk, OnOk, flat_map};
ghost use Rattle.std.specs.List.{range_with_len};
ghost use Rattle.generator.specs.Acts.{acts_before_close, made_acts, month_acts, numbers_to};

use crate::MadeAct;
use crate::act::ask;
use crate::changes::{ask_annuals, ask_interims, ask_move_out, ask_new_rents};
use crate::dates::month_at;
use crate::entering::ask_entering;
use crate::opening::ask_opening;
use book_rows::{CloseAct, Command};
use days_core::{Month, first_of};
use plain_data::NoMemory;
use std::alloc::Global;

/// The most units that a made office has.
const MOST_UNITS: u32 = 300;

/// What the clerk of an office of so many units asks over two years, in order; of 300 where more are wanted.
pub fn made_acts(alloc: Global, units: u32) -> Result<Vec<MadeAct>, NoMemory>
    ensures { IfOk result (λ acts. acts.items ≡ made_acts units) }
{
    let count = units.min(MOST_UNITS) as u16;
    let numbers = numbers_to(alloc, count)?;
    let mut acts = Vec::new(alloc);
    ask_opening(alloc, &mut acts, count)?;
    ask_entering(alloc, &mut acts, &numbers)?;
    ask_months(alloc, &mut acts, &numbers, month_at(2024, 1), 24)?;
    Ok(acts)
}

/// The numbers from 1 to the last.
fn numbers_to(alloc: Global, last: u16) -> Result<Vec<u16>, NoMemory>
    ensures { IfOk result (λ numbers. numbers.items ≡ numbers_to last) }
{
    let mut numbers = Vec::new(alloc);
    for place in 0..last {
        numbers.push(place + 1)?;
    }
    Ok(numbers)
}

/// The months one after another.
fn ask_months(
    alloc: Global,
    acts: &mut Vec<MadeAct>,
    numbers: &[u16],
    first: Month,
    count: u32,
) -> Result<(), NoMemory>
    requires { first + count ≤ 3840 }
    ensures { OnOk result (acts.new.items ≡ acts.old.items ++ flat_map (month_acts numbers.now) (range_with_len first count)) }
{
    for place in 0..count {
        let month = Month::from_number(first.number() + place).unwrap();
        ask_month(alloc, acts, numbers, month)?;
    }
    Ok(())
}

/// What is asked on the first day of a month, and then its closing.
#[tactic(auto, unfolding(crate::specs::Acts::month_acts))]
fn ask_month(
    alloc: Global,
    acts: &mut Vec<MadeAct>,
    numbers: &[u16],
    month: Month,
) -> Result<(), NoMemory>
    ensures { OnOk result (acts.new.items ≡ acts.old.items ++ month_acts numbers.now month) }
{
    ask_before_close(alloc, acts, numbers, month)?;
    ask(acts, first_of(month), Command::Close(CloseAct { month }))
}

fn ask_before_close(
    alloc: Global,
    acts: &mut Vec<MadeAct>,
    numbers: &[u16],
    month: Month,
) -> Result<(), NoMemory>
    ensures { OnOk result (acts.new.items ≡ acts.old.items ++ acts_before_close numbers.now month) }
{
    if month == month_at(2024, 7) {
        ask_interims(alloc, acts, numbers)
    } else if month == month_at(2025, 1) {
        ask_annuals(alloc, acts, numbers)
    } else if month == month_at(2025, 7) {
        ask_new_rents(alloc, acts, numbers)
    } else if month == month_at(2025, 11) {
        ask_move_out(acts)
    } else {
        Ok(())
    }
}
