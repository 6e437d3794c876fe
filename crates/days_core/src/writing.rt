//! Days and months, written as texts.

ghost use Rattle.std.specs.Prelude.{◌≡◌, ◌<◌, IfOk};
ghost use Rattle.days_core.specs.DayText.{day_text, month_text, two_digits};

use crate::{Day, Month};
use plain_data::{NoMemory, Text};
use std::alloc::Global;

/// The day as `YYYY-MM-DD`.
pub fn text_of_day(alloc: Global, day: Day) -> Result<Text, NoMemory>
    ensures { IfOk result (λ text. text ≡ day_text day) }
{
    let (year, month, day) = day.civil();
    let [c, d] = digits(year / 100);
    let [y, z] = digits(year % 100);
    let [m, n] = digits(month);
    let [e, f] = digits(day);
    let bytes = [c, d, y, z, b'-', m, n, b'-', e, f];
    Ok(Text::new(bytes.to_vec(alloc)?))
}

/// The month as `YYYY-MM`.
pub fn text_of_month(alloc: Global, month: Month) -> Result<Text, NoMemory>
    ensures { IfOk result (λ text. text ≡ month_text month) }
{
    let (year, place) = month.civil();
    let [c, d] = digits(year / 100);
    let [y, z] = digits(year % 100);
    let [m, n] = digits(place);
    Ok(Text::new([c, d, y, z, b'-', m, n].to_vec(alloc)?))
}

fn digits(number: u32) -> [u8; 2]
    requires { number < 100 }
    ensures { result ≡ two_digits number }
{
    [b'0' + (number / 10) as u8, b'0' + (number % 10) as u8]
}
