//! The households for which something may have changed since a closing, and from which day on.

ghost use Rattle.std.specs.Prelude.{◌≡◌, ◌≤◌, ◌<◌, ℕ, max, All, IfOk, map, length};
ghost use Rattle.record_history.specs.Held.{records_of, ActsRise};
ghost use Rattle.voucher_core.specs.Walk.{changed_since, made_after, earlier_start, touched_household, BeginsUntouched, TouchesFrom, IsTouchedAfter};
ghost use Rattle.record_history.specs.Limits.{most_acts};

use crate::Closing;
use days_core::{Day, month_of};
use plain_data::NoMemory;
use record_history::{History, Record};
use std::alloc::Global;

/// A household for which something may have changed, but not before its first day.
#[derive(Clone, Copy)]
pub struct Touched {
    pub household: u32,
    pub first: u32,
}

/// The households that have a record of an act after that one, in the order of their numbers.
pub fn touched_since(
    alloc: Global,
    history: &History,
    last_close: u32,
) -> Result<Vec<Touched>, NoMemory>
    requires { length history.now.households ≤ most_acts }
    ensures households { IfOk result (λ changed. map touched_household changed.items ≡ changed_since last_close (records_of history.now.households) (length history.now.households)) }
    ensures untouched { IfOk result (λ changed. All (BeginsUntouched last_close (records_of history.now.households)) changed.items) }
{
    let mut changed = Vec::new(alloc);
    for household in 1..history.households() + 1 {
        if last_close < history.newest_act(household) {
            let first = touched_from(history, household, last_close);
            changed.push(Touched { household, first })?;
        }
    }
    Ok(changed)
}

/// A day before which nothing is changed by the household's records of acts after that one.
fn touched_from(history: &History, household: u32, last_close: u32) -> u32
    ensures { TouchesFrom last_close (records_of history.now.households household) result }
{
    let newer = made_after(history.records(household), last_close);
    let mut first = u32::MAX;
    for held in newer {
        first = first.min(earlier_start(history, household, held));
    }
    first
}

/// The records of acts after that one, of records in the order of their acts.
pub fn made_after(records: &[Record], last_close: u32) -> &[Record]
    requires { ActsRise records.now }
    ensures { result.now ≡ made_after last_close records.now }
{
    let known = records.partition_point(|held| held.act <= last_close);
    &records[known..]
}

/// The first day of the record, or of the one that it corrects or withdraws, if that is earlier.
fn earlier_start(history: &History, household: u32, held: &Record) -> u32
    ensures { result ≡ earlier_start (records_of history.now.households household) held.now }
{
    let own = held.from.number();
    match history.record_at(household, held.corrects) {
        Some(corrected) => own.min(corrected.from.number()),
        None => own,
    }
}

/// The number of the first month, up to the closed one, in which something may have changed for one of these.
pub fn first_changed(changed: &[Touched], closing: &Closing) -> u32
    ensures from { closing.now.first_month ≤ result }
    ensures to { result ≤ max closing.now.first_month closing.now.closed }
    ensures untouched { (month : ℕ) → closing.now.first_month ≤ month → month < result → All (IsTouchedAfter month) changed.now }
{
    let closed = closing.closed.number();
    let reached = match Day::from_number(first_day(changed)) {
        Some(day) => closed.min(month_of(day).number()),
        None => closed,
    };
    reached.max(closing.first_month.number())
}

/// The first of their days.
fn first_day(changed: &[Touched]) -> u32
    ensures { All (λ t. result ≤ t.first) changed.now }
{
    let mut first = u32::MAX;
    for touched in changed {
        first = first.min(touched.first);
    }
    first
}
