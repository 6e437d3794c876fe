//! Days and months, read of their texts.

ghost use Rattle.std.specs.Prelude.{◌≡◌, ◌≢◌, ℕ, ◌<◌, ◌≤◌, Some, IfOk, OnErr, IfSome};
ghost use Rattle.std.specs.Result.{result_ok};
ghost use Rattle.days_core.specs.DayText.{day_text, day_from, day_named, month_text, month_from, month_named, two_digits_from, digit_from};
ghost use Rattle.days_core.specs.Calendar.{last_day};

use crate::civil::{day_with, is_date};
use crate::{Day, Month};

/// The text names no day, or no month, of the years 1880 to 2199.
#[derive(Clone, Copy, Debug, PartialEq, Eq)]
pub struct BadDay;

/// The day that a text of the form `YYYY-MM-DD` names.
pub fn day_of_text(text: &str) -> Result<Day, BadDay>
    ensures exact { result_ok result ≡ day_from text.now }
    // It is the day's own text, and no other text has a day.
    ensures written { IfOk result (λ day. text.now ≡ day_text day) }
    ensures refused { OnErr result ((day : ℕ) → day ≤ last_day → text.now ≢ day_text day) }
{
    day_of_bytes(text.as_bytes()).ok_or(BadDay)
}

#[tactic(auto, unfolding(crate::specs::DayText::day_from))]
fn day_of_bytes(text: &[u8]) -> Option<Day>
    ensures { result ≡ day_from text.now }
{
    match text {
        [c, d, y, z, b'-', m, n, b'-', e, f] => {
            let century = two_digits(*c, *d)?;
            let year = two_digits(*y, *z)?;
            let month = two_digits(*m, *n)?;
            let day = two_digits(*e, *f)?;
            day_named(100 * century + year, month, day)
        }
        _ => None,
    }
}

fn day_named(year: u32, month: u32, day: u32) -> Option<Day>
    ensures { result ≡ day_named year month day }
{
    if is_date(year, month, day) {
        Some(day_with(year, month, day))
    } else {
        None
    }
}

/// The month that a text of the form `YYYY-MM` names.
pub fn month_of_text(text: &str) -> Result<Month, BadDay>
    ensures exact { result_ok result ≡ month_from text.now }
    // It is the month's own text, and no other text has a month.
    ensures written { IfOk result (λ month. text.now ≡ month_text month) }
    ensures refused { OnErr result ((month : ℕ) → month ≤ 3839 → text.now ≢ month_text month) }
{
    month_of_bytes(text.as_bytes()).ok_or(BadDay)
}

#[tactic(auto, unfolding(crate::specs::DayText::month_from))]
fn month_of_bytes(text: &[u8]) -> Option<Month>
    ensures { result ≡ month_from text.now }
{
    match text {
        [c, d, y, z, b'-', m, n] => {
            let century = two_digits(*c, *d)?;
            let year = two_digits(*y, *z)?;
            let place = two_digits(*m, *n)?;
            month_named(100 * century + year, place)
        }
        _ => None,
    }
}

fn month_named(year: u32, place: u32) -> Option<Month>
    ensures { result ≡ month_named year place }
{
    if is_date(year, place, 1) {
        Month::from_number(12 * (year - 1880) + (place - 1))
    } else {
        None
    }
}

fn two_digits(tens: u8, ones: u8) -> Option<u32>
    ensures value { result ≡ two_digits_from tens ones }
    ensures below_100 { IfSome result (λ number. number < 100) }
{
    Some(10 * digit(tens)? + digit(ones)?)
}

fn digit(byte: u8) -> Option<u32>
    ensures value { result ≡ digit_from byte }
    ensures below_10 { IfSome result (λ number. number < 10) }
{
    if byte.is_ascii_digit() {
        Some((byte - b'0').into())
    } else {
        None
    }
}

/// Every day and every month of the calendar is read again from its own text.
pub fn texts_read_back()
    ensures days { (day : ℕ) → day ≤ last_day → day_from (day_text day) ≡ Some day }
    ensures months { (month : ℕ) → month ≤ 3839 → month_from (month_text month) ≡ Some month }
{}
