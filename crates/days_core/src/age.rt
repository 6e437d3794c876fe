//! Ages in whole years.

ghost use Rattle.std.specs.Prelude.{◌≡◌, ◌≤◌};
ghost use Rattle.days_core.specs.Calendar.{age_on, month_in_year, day_in_month, is_earlier_in_year};

use crate::Day;

/// The age, in whole years, on a day of whoever was born on another.
///
/// Own rule: a birth on 29 February counts from 1 March in a common year.
pub fn age_on(born: Day, day: Day) -> u32
    requires { born ≤ day }
    ensures { result ≡ age_on born day }
{
    let (birth_year, ..) = born.civil();
    let (year, ..) = day.civil();
    let years = year - birth_year;
    if comes_earlier_in_year(day, born) {
        years - 1
    } else {
        years
    }
}

fn comes_earlier_in_year(day: Day, other: Day) -> bool
    ensures { result ≡ is_earlier_in_year (month_in_year day) (day_in_month day) (month_in_year other) (day_in_month other) }
{
    let (_, month, day_in_month) = day.civil();
    let (_, other_month, other_day) = other.civil();
    month < other_month || (month == other_month && day_in_month < other_day)
}
