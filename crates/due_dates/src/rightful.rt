//! Rightful days.

ghost use Rattle.std.specs.Prelude.{◌≡◌, ◌+◌, ◌≤◌};
ghost use Rattle.days_core.specs.{Calendar.first_of, OfficeDays.last_office_day};
ghost use Rattle.due_dates.specs.Rightful.{IsInRange, rightful_day_of, interim_day, is_in_time, next_month, first_start_from, next_anniversary};

use crate::Due;
use days_core::{Day, Month, first_of, month_of};
use record_history::Dates;

/// How many days before a payment rises the household is told.
const DAYS_AHEAD: u32 = 30;

/// The day on which the certification may take effect, as a profile after Handbook 4350.3, chapter 7 (own rule).
pub fn rightful_day(due: &Due) -> Day
    requires { IsInRange due.now }
    ensures { result ≡ rightful_day_of due.now }
{
    match due {
        Due::Interim {
            dates,
            higher,
            report_days,
        } => interim_day(dates, *higher, *report_days),
        Due::Annual { opening, after } => next_anniversary(*opening, *after),
        Due::Resume { done } => next_month(*done),
    }
}

fn interim_day(dates: &Dates, higher: bool, report_days: u32) -> Day
    requires event { dates.now.event ≤ last_office_day }
    requires notice { dates.now.notice ≤ last_office_day }
    requires done { dates.now.done ≤ last_office_day }
    ensures { result ≡ interim_day dates.now higher report_days }
{
    match (is_in_time(dates, report_days), higher) {
        (true, true) => first_start_from(dates.notice.number() + DAYS_AHEAD),
        (true, false) | (false, true) => next_month(dates.event),
        (false, false) => next_month(dates.done),
    }
}

fn is_in_time(dates: &Dates, report_days: u32) -> bool
    ensures { result ≡ is_in_time dates.now report_days }
{
    u64::from(dates.notice.number()) <= u64::from(dates.event.number()) + u64::from(report_days)
}

/// The first day of the month after that of the day.
fn next_month(day: Day) -> Day
    requires { day ≤ last_office_day + 30 }
    ensures { result ≡ next_month day }
{
    month_start(month_of(day).number() + 1)
}

/// The first day of the first month that begins on the day of that number or later.
fn first_start_from(number: u32) -> Day
    requires { number ≤ last_office_day + 30 }
    ensures { result ≡ first_start_from number }
{
    let day = Day::from_number(number).unwrap();
    let start = first_of(month_of(day));
    if start == day { day } else { next_month(day) }
}

/// The first anniversary of the opening day that is later than the other day.
fn next_anniversary(opening: Day, after: Day) -> Day
    requires { after ≤ last_office_day }
    ensures { result ≡ next_anniversary opening after }
{
    let next = month_of(after).number() + 1;
    let wait = (month_of(opening).number() % 12 + 12 - next % 12) % 12;
    month_start(next + wait)
}

fn month_start(number: u32) -> Day
    requires { number ≤ 3839 }
    ensures { result ≡ first_of number }
{
    first_of(Month::from_number(number).unwrap())
}
