//! A day, held as its number.

use jiff_core::civil::Date;
use std::marker::Model;

/// The number of 2199-12-31.
pub const LAST_DAY: u32 = 116_877;

/// How many days lie between the first date of `jiff` and 1880-01-01.
const DAYS_BEFORE: u32 = 4_338_715;

/// A day from 1880-01-01 to 2199-12-31.
///
/// Contracts see the number of days since 1880-01-01.
#[derive(Clone, Copy, Debug, PartialEq, Eq, PartialOrd, Ord, Hash)]
pub struct Day {
    number: u32,
}

impl Model for Day {
    ghost use Rattle.std.specs.Prelude.{ℕ, ◌≤◌};
    ghost use Rattle.days_core.specs.Calendar.{last_day};

    ghost Value = { ℕ };

    ghost view = { λ day. day.number };

    ghost invariant = { λ day. day.number ≤ last_day };

    ghost inverse = { λ number. record { number = number } };
}

impl Day {
    ghost use Rattle.std.specs.Prelude.{◌≡◌, ◌≤◌, ◌↔◌, pos, unsigned_abs, true, IsSome, IfSome};
    ghost use Rattle.std.specs.Option.{SomeIff};
    ghost use Rattle.jiff_core.specs.Calendar.{IsBetween};
    ghost use Rattle.days_core.specs.Calendar.{year_of, month_in_year, day_in_month, day_number, is_date, last_day};

    /// The day with that number, counted from 0 for 1880-01-01, and None past 2199-12-31.
    pub fn from_number(number: u32) -> Option<Day>
        ensures { SomeIff result (number ≤ last_day) number }
    {
        if number <= LAST_DAY {
            Some(Day { number })
        } else {
            None
        }
    }

    /// The number of days since 1880-01-01.
    pub fn number(self) -> u32
        ensures value { result ≡ self }
        ensures in_range { result ≤ last_day }
    {
        self.number
    }

    /// The day of a date of `jiff`, and None outside the years 1880 to 2199.
    pub fn from_date(date: Date) -> Option<Day>
        ensures in_range { IsSome result ↔ IsBetween (pos 1880) (pos 2199) date.year }
        ensures value { IfSome result (λ day. day ≡ day_number (unsigned_abs date.year) date.month date.day) }
    {
        if date.year < 1880 || date.year > 2199 {
            return None;
        }
        Some(Day {
            number: date.days_since_min() - DAYS_BEFORE,
        })
    }

    /// The same day as a date of `jiff`.
    pub fn to_date(self) -> Date
        ensures year { result.year ≡ pos (year_of self) }
        ensures month { result.month ≡ month_in_year self }
        ensures day { result.day ≡ day_in_month self }
    {
        Date::from_days_since_min(self.number() + DAYS_BEFORE)
    }

    /// The year, the month's place in it and the day's place in the month, as the calendar names the day.
    pub fn civil(self) -> (u32, u32, u32)
        ensures year { result.0 ≡ year_of self }
        ensures month { result.1 ≡ month_in_year self }
        ensures day { result.2 ≡ day_in_month self }
        ensures in_range { self ≤ last_day }
        ensures is_date { is_date result.0 result.1 result.2 ≡ true }
    {
        let date = self.to_date();
        (date.year as u32, date.month.into(), date.day.into())
    }
}
