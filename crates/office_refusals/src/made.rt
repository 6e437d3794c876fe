//! The record that an act would make.

ghost use Rattle.std.specs.Prelude.{◌≡◌, ◌≤◌, option_copied};
ghost use Rattle.record_history.specs.Held.{records_of};
ghost use Rattle.due_dates.specs.Stale.{unit_rents_on};
ghost use Rattle.office_step.specs.Households.{continued, change_by};
ghost use Rattle.office_step.specs.Made.{entry, told_extremely_low};

use certified_figures::Figures;
use days_core::{Day, Rents};
use office_step::Heading;
use record_history::{Dates, History, Kind, Record};
use rent_table::{LimitRow, RentTable, Unit, has_extremely_low_income};
use tenancy_rules::Change;

/// The record of that number and act.
pub fn entry(number: u32, act: u32, heading: &Heading, extremely: bool, figures: &Figures) -> Record
    ensures { result ≡ entry number act heading.now extremely figures.now }
{
    Record {
        household: heading.household,
        number,
        act,
        kind: heading.kind,
        from: heading.from,
        corrects: heading.corrects,
        unit: heading.unit,
        persons: figures.persons,
        size: figures.size,
        extremely,
        annual: figures.annual,
        adjusted: figures.adjusted,
        ttp: figures.ttp,
        rents: figures.rents,
        assistance: figures.assistance,
        dates: heading.dates,
    }
}

/// Whether it is told of a record of that kind that its income is extremely low: of a move-in, by the limits of its
/// first day.
pub fn told_extremely_low(kind: Kind, limits: Option<&LimitRow>, figures: &Figures) -> bool
    requires least { 1 ≤ figures.now.size }
    requires most { figures.now.size ≤ 12 }
    ensures { result ≡ told_extremely_low kind (option_copied limits.entry) figures.now }
{
    match (kind, limits) {
        (Kind::MI, Some(limits)) => has_extremely_low_income(limits, figures.size, figures.annual),
        _ => false,
    }
}

/// The record that one of that first day continues, if it names no other: the one in force on the day, or record 1.
pub fn continued(history: &History, household: u32, from: Day) -> Option<&Record>
    ensures { option_copied result ≡ continued (records_of history.now.households household) from }
{
    match history.in_force(household, from) {
        Some(held) => Some(held),
        None => history.record_at(household, 1),
    }
}

/// The rents of the unit on the day, where it is there and its group has rents then.
pub fn rents_in_unit(table: &RentTable, unit: u32, day: Day) -> Option<Rents>
    ensures { result ≡ unit_rents_on table.now.units table.now.rents unit day }
{
    let unit = table.unit(unit)?;
    table.rents_on(unit.group, day)
}

/// What a record does to the live ones: the one that it names no longer counts, and unless it withdraws that one it
/// counts itself.
pub fn change_by(made: &Record) -> Change
    ensures { result ≡ change_by made.now }
{
    Change {
        drop: made.corrects,
        add: if made.kind == Kind::WD {
            None
        } else {
            Some(*made)
        },
    }
}
