//! Refusals of a closing by its month, and by rents that are due.

ghost use Rattle.std.specs.Prelude.{◌≡◌};
ghost use Rattle.record_history.specs.Held.{records_of};
ghost use Rattle.office_step.specs.Refusals.{month_after, next_to_close, household_rent_due};

use days_core::{Day, LAST_OFFICE_MONTH, Month};
use due_dates::rent_due_day;
use office_step::Refusal;
use record_history::{Dates, History, Record};
use rent_table::RentTable;

/// The next month to close: the plan's first, or the one after that which was closed last.
pub fn next_to_close(first: Month, closed: Option<Month>) -> Option<Month>
    ensures { result ≡ next_to_close first closed }
{
    match closed {
        Some(closed) => month_after(closed),
        None => Some(first),
    }
}

fn month_after(month: Month) -> Option<Month>
    ensures { result ≡ month_after month }
{
    if month.number() < LAST_OFFICE_MONTH {
        Month::from_number(month.number() + 1)
    } else {
        None
    }
}

/// Refused where the household's record in force, neither a move-out nor a termination, has other rents than its unit on
/// a day of the span: the least such day.
pub fn household_rent_due(
    history: &History,
    table: &RentTable,
    first: Day,
    last: Day,
    household: u32,
) -> Option<Refusal>
    ensures { result ≡ household_rent_due (records_of history.now.households household) table.now.units table.now.rents first last household }
{
    let day = rent_due_day(history, table, household, first, last)?;
    let held = history.in_force(household, day)?;
    Some(Refusal::RentDue {
        household,
        target: held.number,
        day,
    })
}
