//! A month, held as its number.

use std::marker::Model;

/// A month from 1880-01 to 2199-12.
///
/// Contracts see the number of months since 1880-01.
#[derive(Clone, Copy, Debug, PartialEq, Eq, PartialOrd, Ord, Hash)]
pub struct Month {
    number: u32,
}

impl Model for Month {
    ghost use Rattle.std.specs.Prelude.{ℕ, ◌≤◌};

    ghost Value = { ℕ };

    ghost view = { λ month. month.number };

    ghost invariant = { λ month. month.number ≤ 3839 };

    ghost inverse = { λ number. record { number = number } };
}

impl Month {
    ghost use Rattle.std.specs.Prelude.{◌≡◌, ◌≤◌};
    ghost use Rattle.std.specs.Option.{SomeIff};
    ghost use Rattle.days_core.specs.Calendar.{month_year, month_place};

    /// The month with that number, counted from 0 for 1880-01, and None past 2199-12.
    pub fn from_number(number: u32) -> Option<Month>
        ensures { SomeIff result (number ≤ 3839) number }
    {
        if number <= 3839 {
            Some(Month { number })
        } else {
            None
        }
    }

    /// The number of months since 1880-01.
    pub fn number(self) -> u32
        ensures value { result ≡ self }
        ensures in_range { result ≤ 3839 }
    {
        self.number
    }

    /// The year and the month's place in it, from 1 for January.
    pub fn civil(self) -> (u32, u32)
        ensures year { result.0 ≡ month_year self }
        ensures place { result.1 ≡ month_place self }
        ensures in_range { self ≤ 3839 }
    {
        (1880 + self.number / 12, self.number % 12 + 1)
    }
}
