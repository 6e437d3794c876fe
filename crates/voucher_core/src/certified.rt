//! What is certified for a month.

ghost use Rattle.std.specs.Prelude.{◌≡◌, ◌≤◌, ◌+◌, ◌-◌};
ghost use Rattle.days_core.specs.RentBounds.{most_gross_rent};
ghost use Rattle.days_core.specs.Calendar.{days_in, first_of};
ghost use Rattle.record_history.specs.Held.{records_of};
ghost use Rattle.voucher_core.specs.Certified.{assistance_on, share_on, certified_amount};

use crate::lines::day_at;
use days_core::{Day, Month, days_in};
use record_history::{Dates, History, Record};
use share_rules::share;

/// What the household is certified for in the month, by all that is known of it, in whole dollars.
pub fn certified_amount(history: &History, household: u32, month: Month) -> u32
    ensures { result ≡ certified_amount (records_of history.now.households household) month }
{
    let mut total = 0;
    for place in 0..days_in(month) {
        total += share_on(history, household, month, place + 1);
    }
    total
}

/// The share of the day with that place in the month.
fn share_on(history: &History, household: u32, month: Month, place: u32) -> u32
    requires first { 1 ≤ place }
    requires last { place ≤ days_in month }
    ensures value { result ≡ share_on (records_of history.now.households household) month (first_of month + (place - 1)) }
    ensures within { result ≤ most_gross_rent }
{
    let assistance = assistance_on(history, household, day_at(month, place));
    share(assistance, place, days_in(month))
}

fn assistance_on(history: &History, household: u32, day: Day) -> u32
    ensures value { result ≡ assistance_on (records_of history.now.households household) day }
    ensures within { result ≤ most_gross_rent }
{
    match history.in_force(household, day) {
        Some(held) => held.assistance,
        None => 0,
    }
}
