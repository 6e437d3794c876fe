//! Shares of days.

ghost use Rattle.std.specs.Prelude.{◌≡◌, ◌≤◌};
ghost use Rattle.days_core.specs.RentBounds.{most_gross_rent};
ghost use Rattle.share_rules.specs.Shares.{share_to, day_share, run_share};

use days_core::round_half_up;

/// The share of one day of a month in an amount for the whole month, in whole dollars.
///
/// Own rule: the days up to each take their part in proportion, rounded half up, so that the shares of all days add up
/// to the amount. The day is numbered from 1, and the month has so many days.
pub fn share(amount: u32, day: u32, days: u32) -> u32
    requires amount { amount ≤ most_gross_rent }
    requires day { 1 ≤ day }
    requires in_month { day ≤ days }
    requires shortest { 28 ≤ days }
    requires longest { days ≤ 31 }
    ensures value { result ≡ day_share amount day days }
    ensures within { result ≤ amount }
{
    share_to(amount, day, days) - share_to(amount, day - 1, days)
}

/// The shares of the days from the first to the last of a month together, in whole dollars.
pub fn share_run(amount: u32, first: u32, last: u32, days: u32) -> u32
    requires amount { amount ≤ most_gross_rent }
    requires first { 1 ≤ first }
    requires in_order { first ≤ last }
    requires in_month { last ≤ days }
    requires shortest { 28 ≤ days }
    requires longest { days ≤ 31 }
    ensures sum { result ≡ run_share amount first last days }
    ensures whole_month { first ≡ 1 → last ≡ days → result ≡ amount }
    ensures within { result ≤ amount }
{
    share_to(amount, last, days) - share_to(amount, first - 1, days)
}

fn share_to(amount: u32, day: u32, days: u32) -> u32
    requires amount { amount ≤ most_gross_rent }
    requires in_month { day ≤ days }
    requires shortest { 28 ≤ days }
    requires longest { days ≤ 31 }
    ensures { result ≡ share_to amount day days }
{
    round_half_up(u64::from(amount * day), u64::from(days)) as u32
}
