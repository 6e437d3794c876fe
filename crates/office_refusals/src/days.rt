//! The day of an act.

ghost use Rattle.std.specs.Prelude.{◌≡◌, ◌≤◌};
ghost use Rattle.office_step.specs.Step.{day_after};
ghost use Rattle.days_core.specs.OfficeDays.{first_office_day};

use days_core::{Day, FIRST_OFFICE_DAY, LAST_OFFICE_DAY};

/// The day of the next act: the clock's, put into 2000-01-01 to 2099-12-31, or that of the last act where it is later.
/// Where there is no act, `last` is 1880-01-01.
pub fn act_day(last: Day, clock: Day) -> Day
    ensures value { result ≡ day_after last clock }
    ensures first { first_office_day ≤ result }
    ensures not_before { last ≤ result }
{
    let number = clock
        .number()
        .max(FIRST_OFFICE_DAY)
        .min(LAST_OFFICE_DAY)
        .max(last.number());
    Day::from_number(number).unwrap()
}
