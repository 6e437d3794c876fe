//! Days and months of the sample.

ghost use Rattle.std.specs.Prelude.{◌≤◌};
ghost use Rattle.days_core.specs.OfficeDays.{last_office_day};

use days_core::{Day, LAST_OFFICE_DAY, Month, day_of_text, month_of_text};

/// The day of that text, as 2024-01-31. Another text has the first day of all, 1880-01-01.
pub fn day(text: &str) -> Day {
    match day_of_text(text) {
        Ok(day) => day,
        Err(_) => Day::from_number(0).unwrap(),
    }
}

/// The day of that text, through 2099-12-31, the last that an office has. Another text has the first day of all,
/// 1880-01-01.
pub fn office_day(text: &str) -> Day
    ensures { result ≤ last_office_day }
{
    match day_of_text(text) {
        Ok(day) if day.number() <= LAST_OFFICE_DAY => day,
        _ => Day::from_number(0).unwrap(),
    }
}

/// The month of that text, as 2024-01. Another text has the first month of all, 1880-01.
pub fn month(text: &str) -> Month {
    match month_of_text(text) {
        Ok(month) => month,
        Err(_) => Month::from_number(0).unwrap(),
    }
}
