//! Clocks: one that stands still, and the system's.

ghost use Rattle.std.specs.Prelude.{◌≡◌};
ghost use Rattle.days_core.specs.OfficeDays.{first_office_day};

use days_core::{Day, FIRST_OFFICE_DAY};
use jiff::Timestamp;
use jiff::tz::Offset;
use std::marker::Model;
use std::time;

/// Shows the day.
pub trait Clock {
    ghost use Rattle.std.specs.Prelude.{ℕ};

    // The clock may show this day.
    ghost may_show: { Self → ℕ → Type 0 };

    /// The day that it is.
    fn today(&self) -> Day
        ensures { may_show self.now result };
}

/// A clock that stands still, which contracts see as its day.
#[derive(Debug, Drop)]
pub struct FixedClock {
    day: Day,
}

impl Model for FixedClock {
    ghost use Rattle.std.specs.Prelude.{ℕ};

    ghost Value = { ℕ };

    ghost view = { λ clock. clock.day };
}

impl FixedClock {
    /// A clock that shows this day.
    pub fn new(day: Day) -> FixedClock
        ensures { result ≡ day }
    {
        FixedClock { day }
    }
}

impl Clock for FixedClock {
    ghost may_show = { λ clock day. day ≡ clock };

    fn today(&self) -> Day {
        self.day
    }
}

/// The day of UTC by the time of the system, and 2000-01-01 where the time can't be read or lies outside the range of
/// [`Day`].
///
/// No contract can say what the system's time is, so this clock may show any day. Contracts see what it reads the time
/// from.
#[derive(Debug, Drop)]
pub struct SystemClock<T> {
    time: T,
}

impl<T> Model for SystemClock<T> {
    ghost Value = { T };

    ghost view = { λ clock. clock.time };
}

impl<T> SystemClock<T> {
    /// A clock over the time of the system.
    pub fn new(time: T) -> SystemClock<T>
        ensures { result ≡ time }
    {
        SystemClock { time }
    }
}

impl<T: time::Clock> Clock for SystemClock<T> {
    ghost use Rattle.std.specs.Prelude.{◌≤◌};
    ghost use Rattle.days_core.specs.Calendar.{last_day};

    ghost may_show = { λ clock day. day ≤ last_day };

    fn today(&self) -> Day {
        match Timestamp::now(&self.time) {
            Ok(now) => {
                let date = Offset::UTC.to_datetime(now).date();
                Day::from_date(date.to_plain()).unwrap_or(first_of_2000())
            }
            Err(_) => first_of_2000(),
        }
    }
}

fn first_of_2000() -> Day
    ensures { result ≡ first_office_day }
{
    Day::from_number(FIRST_OFFICE_DAY).unwrap()
}
