//! Which records are in force on the days of a month, before and now.

ghost use Rattle.std.specs.Prelude.{◌≡◌, ◌≤◌, OnOk};
ghost use Rattle.days_core.specs.Calendar.{last_day};
ghost use Rattle.record_history.specs.Records.{as_of};
ghost use Rattle.record_history.specs.Held.{records_of};
ghost use Rattle.record_history.specs.Runs.{number_on};
ghost use Rattle.voucher_core.specs.Lines.{change_on, changes};
ghost use Rattle.voucher_core.specs.Walk.{known_before};

use crate::starts::next_start;
use days_core::{Day, Month, first_of, last_of};
use plain_data::NoMemory;
use record_history::{History, Stretch, add_days};

/// The number of the record by which a day was last paid for, and of the one that is in force on it now: 0 where none is.
#[derive(Clone, Copy, PartialEq, Eq)]
pub struct Change {
    pub old: u32,
    pub new: u32,
}

/// Makes the runs the changes of a month for a household.
///
/// What is in force is looked up once for each run of days on which no record that counts begins but on the first.
pub fn changes_of_month(
    runs: &mut Vec<Stretch<Change>>,
    history: &History,
    household: u32,
    month: Month,
    paid_at: Option<u32>,
    act: u32,
) -> Result<(), NoMemory>
    ensures { OnOk result (runs.new.items ≡ changes (known_before paid_at (records_of history.now.households household)) (as_of act (records_of history.now.households household)) month) }
{
    runs.clear();
    let first = first_of(month).number();
    let end = last_of(month).number() + 1;
    let mut day = first;
    while day < end {
        let next = next_start(history, household, day, end, paid_at, act);
        let change = change_on(history, household, day, paid_at, act);
        add_days(runs, day, next - 1, change)?;
        day = next;
    }
    Ok(())
}

fn change_on(history: &History, household: u32, day: u32, paid_at: Option<u32>, act: u32) -> Change
    requires { day ≤ last_day }
    ensures { result ≡ change_on (known_before paid_at (records_of history.now.households household)) (as_of act (records_of history.now.households household)) day }
{
    let day = Day::from_number(day).unwrap();
    Change {
        old: number_before(history, household, day, paid_at),
        new: number_on(history, household, day, act),
    }
}

fn number_before(history: &History, household: u32, day: Day, paid_at: Option<u32>) -> u32
    ensures { result ≡ number_on (known_before paid_at (records_of history.now.households household)) day }
{
    match paid_at {
        Some(last_close) => number_on(history, household, day, last_close),
        None => 0,
    }
}

fn number_on(history: &History, household: u32, day: Day, act: u32) -> u32
    ensures { result ≡ number_on (as_of act (records_of history.now.households household)) day }
{
    match history.in_force_as_of(household, day, act) {
        Some(held) => held.number,
        None => 0,
    }
}
