//! How far an office is with its admissions of a fiscal year.

ghost use Rattle.std.specs.Prelude.{◌≡◌, ◌≤◌, ◌&&◌, length, filter, sum_by};
ghost use Rattle.office_register.specs.Below.office_step.Candidates.{fiscal_year, targets_of};
ghost use Rattle.admission_order.specs.Admissions.{is_admission_of};
ghost use Rattle.record_history.specs.Limits.{most_acts};

use crate::live::live_in_order;
use days_core::{Day, Month, month_of};
use office_register::Register;
use record_history::{Dates, History, Kind, Record};
use rent_table::Plan;
use wait_list::Targets;

/// How far the office is with its admissions of the fiscal year in which the day lies.
pub fn targets(register: &Register, plan: &Plan, day: Day) -> Targets
    ensures { result ≡ targets_of plan.now day register.now.known.households }
{
    targets_by(register.history(), plan, day)
}

fn targets_by(history: &History, plan: &Plan, day: Day) -> Targets
    requires { sum_by length history.now.households ≤ most_acts }
    ensures { result ≡ targets_of plan.now day history.now.households }
{
    let year = fiscal_year(plan, month_of(day));
    let mut admitted = 0;
    let mut extremely = 0;
    for place in 0..history.households() {
        let live = live_in_order(history, place + 1);
        admitted += admitted_among(live, plan, year);
        extremely += extremely_among(live, plan, year);
    }
    Targets {
        method: plan.method,
        expected: plan.expected,
        admitted,
        extremely,
    }
}

fn admitted_among(live: &[Record], plan: &Plan, year: u32) -> u32
    requires { length live.now ≤ most_acts }
    ensures { result ≡ length (filter (is_admission_of plan.now year) live.now) }
{
    live.iter()
        .filter(|held| is_admission(plan, year, held))
        .count() as u32
}

/// How many of the admissions are of a family of extremely low income.
fn extremely_among(live: &[Record], plan: &Plan, year: u32) -> u32
    requires { length live.now ≤ most_acts }
    ensures { result ≡ length (filter (λ r. r.extremely && is_admission_of plan.now year r) live.now) }
{
    live.iter()
        .filter(|held| held.extremely && is_admission(plan, year, held))
        .count() as u32
}

fn is_admission(plan: &Plan, year: u32, held: &Record) -> bool
    ensures { result ≡ is_admission_of plan.now year held.now }
{
    held.kind == Kind::MI && fiscal_year(plan, month_of(held.from)) == year
}

/// The number of the fiscal year in which a month lies.
fn fiscal_year(plan: &Plan, month: Month) -> u32
    ensures { result ≡ fiscal_year plan.now month }
{
    (month.number() + 13).saturating_sub(plan.fiscal_month) / 12
}
