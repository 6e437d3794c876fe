//! The days of a month, and the month of a day.

ghost use Rattle.std.specs.Prelude.{◌≡◌};
ghost use Rattle.days_core.specs.Calendar.{days_in, first_of, last_of, month_of, moved};

use crate::civil::{day_with, days_in_month};
use crate::{Day, Month};

/// The month in which a day lies.
pub fn month_of(day: Day) -> Month
    ensures { result ≡ month_of day }
{
    let (year, place, _) = day.civil();
    Month::from_number(12 * (year - 1880) + (place - 1)).unwrap()
}

/// The first day of a month.
pub fn first_of(month: Month) -> Day
    ensures { result ≡ first_of month }
{
    let (year, place) = month.civil();
    day_with(year, place, 1)
}

/// The last day of a month.
pub fn last_of(month: Month) -> Day
    ensures { result ≡ last_of month }
{
    let (year, place) = month.civil();
    day_with(year, place, days_in_month(year, place))
}

/// How many days a month has: 28 to 31.
pub fn days_in(month: Month) -> u32
    ensures { result ≡ days_in month }
{
    let (year, place) = month.civil();
    days_in_month(year, place)
}

/// The month so many months later, or earlier for a negative count; None outside 1880-01 to 2199-12.
pub fn plus_months(month: Month, count: i32) -> Option<Month>
    ensures { result ≡ moved 3839 month count }
{
    let number = i64::from(month.number()) + i64::from(count);
    if number < 0 || number > 3839 {
        return None;
    }
    Month::from_number(number as u32)
}
