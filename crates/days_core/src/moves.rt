//! Days before and after a day.

ghost use Rattle.std.specs.Prelude.{◌≡◌};
ghost use Rattle.days_core.specs.Calendar.{moved, years_before, last_day};

use crate::Day;
use crate::civil::{day_with, days_in_month};
use crate::day::LAST_DAY;

/// The day so many days later, or earlier for a negative count; None outside 1880-01-01 to 2199-12-31. It is for callers
/// outside.
pub fn plus_days(day: Day, count: i32) -> Option<Day>
    ensures { result ≡ moved last_day day count }
{
    let number = i64::from(day.number()) + i64::from(count);
    if number < 0 || number > i64::from(LAST_DAY) {
        return None;
    }
    Day::from_number(number as u32)
}

/// The same day of the year so many years before, and None before 1880-01-01.
///
/// Own rule: before 29 February it is 28 February in a common year.
pub fn years_before(day: Day, years: u32) -> Option<Day>
    ensures { result ≡ years_before day years }
{
    let (year, month, day_in_month) = day.civil();
    if years > year - 1880 {
        return None;
    }
    let earlier = year - years;
    let last = days_in_month(earlier, month);
    Some(day_with(earlier, month, day_in_month.min(last)))
}
