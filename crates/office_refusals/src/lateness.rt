//! Refusals of a closing by households whose certification is overdue.

ghost use Rattle.std.specs.Prelude.{◌≡◌, ◌≤◌, nat_le, filter, length};
ghost use Rattle.std.specs.Option.{option_or};
ghost use Rattle.days_core.specs.OfficeDays.{last_office_month};
ghost use Rattle.days_core.specs.Calendar.{last_of};
ghost use Rattle.record_history.specs.Held.{records_of};
ghost use Rattle.record_history.specs.Records.{live_records};
ghost use Rattle.tenancy_rules.specs.Order.{earliest};
ghost use Rattle.office_step.specs.Refusals.{base, overdue_day, is_unpaid, household_overdue, first_household};

use crate::live::{base_by, opening};
use crate::rightful::anniversary;
use days_core::{Day, Month, last_of};
use due_dates::overdue as is_overdue;
use office_step::Refusal;
use record_history::History;
use voucher_core::certified_amount;

/// Refused where a household is to be paid for the month by a certification of fifteen or more months before: the least
/// such household, and the anniversary on which it should have been certified.
pub fn overdue(history: &History, month: Month) -> Option<Refusal>
    requires { month ≤ last_office_month }
    ensures { result ≡ first_household (λ household. household_overdue (records_of history.now.households household) month household) (length history.now.households) }
{
    let mut late = None;
    for place in 0..history.households() {
        late = late_so_far(late, history, month, place + 1);
    }
    late
}

/// What was found before, or else that of the household.
fn late_so_far(
    found: Option<Refusal>,
    history: &History,
    month: Month,
    household: u32,
) -> Option<Refusal>
    requires { month ≤ last_office_month }
    ensures { result ≡ option_or found (household_overdue (records_of history.now.households household) month household) }
{
    match found {
        Some(_) => found,
        None => household_overdue(history, month, household),
    }
}

fn household_overdue(history: &History, month: Month, household: u32) -> Option<Refusal>
    requires { month ≤ last_office_month }
    ensures { result ≡ household_overdue (records_of history.now.households household) month household }
{
    // What is paid for the month is the dearer of the two to tell.
    let anniversary = overdue_day(history, month, household)?;
    if is_unpaid(history, household, month) {
        return None;
    }
    Some(Refusal::Overdue {
        household,
        anniversary,
    })
}

fn overdue_day(history: &History, month: Month, household: u32) -> Option<Day>
    requires { month ≤ last_office_month }
    ensures { let own = records_of history.now.households household in
        result ≡ overdue_day month (earliest (live_records own)) (base (filter (λ r. nat_le r.from (last_of month)) (live_records own))) }
{
    let opening = opening(history, household)?;
    let base = base_by(history, household, last_of(month))?;
    if is_overdue(base.from, month) {
        Some(anniversary(opening.from, base.from))
    } else {
        None
    }
}

/// Whether nothing is to be paid for the month.
#[tactic(auto, unfolding(office_step::specs::Refusals::is_unpaid))]
fn is_unpaid(history: &History, household: u32, month: Month) -> bool
    ensures { result ≡ is_unpaid (records_of history.now.households household) month }
{
    certified_amount(history, household, month) == 0
}
