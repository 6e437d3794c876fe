//! Days made from a year, a month and a day, by the calendar of `jiff`.

ghost use Rattle.std.specs.Prelude.{◌≡◌, ◌<◌, pos, true};
ghost use Rattle.jiff_core.specs.Calendar.{days_in_month};
ghost use Rattle.days_core.specs.Calendar.{is_date, day_number};

use crate::Day;
use jiff_core::civil;
use jiff_core::civil::Date;

pub fn is_date(year: u32, month: u32, day: u32) -> bool
    ensures { result ≡ is_date year month day }
{
    (1880 <= year && year <= 2199)
        && ((1 <= month && month <= 12) && (1 <= day && day <= days_in_month(year, month)))
}

pub fn days_in_month(year: u32, month: u32) -> u32
    requires year { year < 10000 }
    requires month { month < 100 }
    ensures { result ≡ days_in_month (pos year) month }
{
    civil::days_in_month(year as i16, month as u8).into()
}

/// The day with this year, month and day, which the calendar has.
pub fn day_with(year: u32, month: u32, day: u32) -> Day
    requires { is_date year month day ≡ true }
    ensures { result ≡ day_number year month day }
{
    let date = Date::constrain(year as i16, month as u8, day as u8);
    Day::from_date(date).unwrap()
}
