//! Whether rents are stale on a day.

ghost use Rattle.std.specs.Prelude.{◌≡◌};
ghost use Rattle.record_history.specs.Held.{records_of};
ghost use Rattle.due_dates.specs.Stale.{ends_assistance, unit_rents_on, has_stale_rents, is_rent_stale_on};

use days_core::{Day, Rents};
use record_history::{Dates, History, Kind, Record};
use rent_table::{RentTable, Unit};

/// Whether the household has assistance on the day, by other rents than its unit has then.
pub fn is_rent_stale_on(history: &History, table: &RentTable, household: u32, day: Day) -> bool
    ensures { result ≡ is_rent_stale_on (records_of history.now.households household) table.now.units table.now.rents day }
{
    match history.in_force(household, day) {
        Some(held) => !ends_assistance(held.kind) && has_stale_rents(table, held, day),
        None => false,
    }
}

fn has_stale_rents(table: &RentTable, held: &Record, day: Day) -> bool
    ensures { result ≡ has_stale_rents table.now.units table.now.rents day held.now }
{
    match unit_rents_on(table, held.unit, day) {
        Some(rents) => held.rents != rents,
        None => false,
    }
}

fn unit_rents_on(table: &RentTable, number: u32, day: Day) -> Option<Rents>
    ensures { result ≡ unit_rents_on table.now.units table.now.rents number day }
{
    let unit = table.unit(number)?;
    table.rents_on(unit.group, day)
}

fn ends_assistance(kind: Kind) -> bool
    ensures { result ≡ ends_assistance kind }
{
    match kind {
        Kind::MO | Kind::TM => true,
        Kind::MI | Kind::IC | Kind::AR | Kind::IR | Kind::GR | Kind::UT | Kind::WD => false,
    }
}
