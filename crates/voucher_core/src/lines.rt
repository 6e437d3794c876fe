//! The lines of a closing, household by household and month by month.

ghost use Rattle.std.specs.Prelude.{◌≡◌, ◌≤◌, ◌<◌, ◌-◌, ◌+◌, ◌^◌, ◌++◌, ℕ, All, Contains, List, [], OnOk, map, length};
ghost use Rattle.std.specs.List.{flat_map};
ghost use Rattle.days_core.specs.RentBounds.{most_gross_rent};
ghost use Rattle.days_core.specs.Calendar.{days_in, first_of, last_of};
ghost use Rattle.record_history.specs.declared.records.Record.{Record};
ghost use Rattle.record_history.specs.Limits.{most_acts};
ghost use Rattle.record_history.specs.Held.{records_of, AreNumbered};
ghost use Rattle.voucher_core.specs.Lines.{change_on, line_of, month_lines, known_as_of, lines_for, adjustment_lines, placed};
ghost use Rattle.voucher_core.specs.Naming.{assistance_of};
ghost use Rattle.voucher_core.specs.Walk.{known_before, touched_household, BeginsUntouched};

use crate::changes::{Change, changes_of_month};
use crate::touched::{Touched, first_changed, touched_since};
use crate::{Closing, Line};
use days_core::{Day, Month, days_in, first_of, last_of};
use plain_data::NoMemory;
use record_history::{History, Stretch};
use share_rules::share_run;
use std::alloc::Global;

/// Adds the lines for the months before the closed one, which are none where there was no closing before.
///
/// Only the households that have a new record since the last closing are looked at, and only from the first month on in
/// which something can have changed for one of them.
pub fn add_adjustments(
    alloc: Global,
    lines: &mut Vec<Line>,
    history: &History,
    closing: &Closing,
) -> Result<(), NoMemory>
    requires last_close { closing.now.last_close ≤ closing.now.act }
    requires households { length history.now.households ≤ most_acts }
    ensures { OnOk result (lines.new.items ≡ lines.old.items ++ adjustment_lines (records_of history.now.households) (length history.now.households) closing.now) }
{
    if closing.last_close == 0 {
        return Ok(());
    }
    let changed = touched_since(alloc, history, closing.last_close)?;
    let mut runs = Vec::new(alloc);
    for month in first_changed(&changed, closing)..closing.closed.number() {
        let month = Month::from_number(month).unwrap();
        add_changed(lines, &mut runs, history, &changed, closing, month)?;
    }
    Ok(())
}

/// Adds the lines of these households for a month that was closed before.
fn add_changed(
    lines: &mut Vec<Line>,
    runs: &mut Vec<Stretch<Change>>,
    history: &History,
    changed: &[Touched],
    closing: &Closing,
    month: Month,
) -> Result<(), NoMemory>
    requires last_close { closing.now.last_close ≤ closing.now.act }
    requires untouched { All (BeginsUntouched closing.now.last_close (records_of history.now.households)) changed.now }
    ensures { OnOk result (lines.new.items ≡ lines.old.items ++ flat_map (λ h. month_lines closing.now h month (known_as_of (records_of history.now.households) closing.now.last_close h) (known_as_of (records_of history.now.households) closing.now.act h)) (map touched_household changed.now)) }
{
    let last = last_of(month).number();
    let paid_at = Some(closing.last_close);
    for touched in changed {
        if touched.first <= last {
            let household = touched.household;
            add_household(lines, runs, history, closing, household, month, paid_at)?;
        }
    }
    Ok(())
}

/// Adds the lines of all households for the month that is closed.
pub fn add_month(
    alloc: Global,
    lines: &mut Vec<Line>,
    history: &History,
    closing: &Closing,
) -> Result<(), NoMemory>
    requires { length history.now.households ≤ most_acts }
    ensures { OnOk result (lines.new.items ≡ lines.old.items ++ lines_for (λ h. []) (known_as_of (records_of history.now.households) closing.now.act) (length history.now.households) closing.now closing.now.closed) }
{
    let mut runs = Vec::new(alloc);
    for household in 1..history.households() + 1 {
        add_household(
            lines,
            &mut runs,
            history,
            closing,
            household,
            closing.closed,
            None,
        )?;
    }
    Ok(())
}

/// Adds the lines of a household for a month. The room of the runs is used again and again.
fn add_household(
    lines: &mut Vec<Line>,
    runs: &mut Vec<Stretch<Change>>,
    history: &History,
    closing: &Closing,
    household: u32,
    month: Month,
    paid_at: Option<u32>,
) -> Result<(), NoMemory>
    ensures { OnOk result (lines.new.items ≡ lines.old.items ++ month_lines closing.now household month (known_before paid_at (records_of history.now.households household)) (known_as_of (records_of history.now.households) closing.now.act household)) }
{
    changes_of_month(runs, history, household, month, paid_at, closing.act)?;
    let found: &[Stretch<Change>] = runs;
    for run in found {
        let line = line_of(history, closing, household, month, run);
        if line.amount != 0 {
            lines.push(line)?;
        }
    }
    Ok(())
}

/// The line of a run of days of the month, on each of which the records of its numbers are in force.
fn line_of(
    history: &History,
    closing: &Closing,
    household: u32,
    month: Month,
    run: &Stretch<Change>,
) -> Line
    requires from { first_of month ≤ run.now.first }
    requires in_order { run.now.first ≤ run.now.last }
    requires to { run.now.last ≤ last_of month }
    ensures { (old new : List Record) → All (Contains (records_of history.now.households household)) old → All (Contains (records_of history.now.households household)) new → ((day : ℕ) → run.now.first ≤ day → day ≤ run.now.last → run.now.key ≡ change_on old new day) → result ≡ line_of closing.now household month old new run.now }
{
    let days = days_in(month);
    let before = first_of(month).number();
    let first = run.first - before + 1;
    let last = run.last - before + 1;
    let new = assistance_of(history, household, run.key.new);
    let old = assistance_of(history, household, run.key.old);
    let new = share_run(new, first, last, days);
    let old = share_run(old, first, last, days);
    Line {
        act: closing.act,
        place: 0,
        month: closing.closed,
        household,
        for_month: month,
        first: day_at(month, first),
        last: day_at(month, last),
        old: run.key.old,
        new: run.key.new,
        amount: new as i32 - old as i32,
    }
}

/// The assistance of the household's record of that number, and 0 where it has none.
fn assistance_of(history: &History, household: u32, number: u32) -> u32
    ensures value { result ≡ assistance_of (records_of history.now.households household) number }
    ensures within { result ≤ most_gross_rent }
    ensures numbered { AreNumbered (records_of history.now.households household) }
{
    match history.record_at(household, number) {
        Some(held) => held.assistance,
        None => 0,
    }
}

/// The day with that place in a month.
pub fn day_at(month: Month, place: u32) -> Day
    requires first { 1 ≤ place }
    requires last { place ≤ days_in month }
    ensures { result ≡ first_of month + (place - 1) }
{
    Day::from_number(last_of(month).number() + place - days_in(month)).unwrap()
}

/// Numbers the lines from 1.
pub fn number_lines(lines: &mut Vec<Line>)
    requires { length lines.old.items < 2 ^ 32 }
    ensures { lines.new.items ≡ placed 1 lines.old.items }
{
    for at in 0..lines.len() {
        let line = &mut lines[at];
        line.place = at as u32 + 1;
    }
}
