//! How far the office is with the admissions of a fiscal year.

ghost use Rattle.std.specs.Prelude.{◌≡◌, ◌≤◌};
ghost use Rattle.wait_list.specs.Target.{is_target_open};
ghost use Rattle.office_answers.specs.FiscalYear.{first_fiscal_month, first_fiscal_day, targets_answer};

use crate::{Admissions, Answer};
use admission_order::office_register::Register;
use admission_order::office_step::Refusal;
use admission_order::targets;
use days_core::{Day, Month, first_of, month_of};
use rent_table::Plan;
use wait_list::Targets;

pub fn targets_answer(register: &Register, day: Day) -> Result<Answer, Refusal>
    ensures { result ≡ targets_answer register.now.known day }
{
    let Some(plan) = register.plan() else {
        return Err(Refusal::NoPlan);
    };
    let targets = targets(register, plan, day);
    Ok(Answer::Targets(Admissions {
        first_day: first_fiscal_day(plan, day),
        expected: targets.expected,
        admitted: targets.admitted,
        extremely_low: targets.extremely,
        opened: is_target_open(&targets),
    }))
}

/// Fewer than 40 percent of the admissions that are expected were of families of extremely low income.
fn is_target_open(targets: &Targets) -> bool
    ensures { result ≡ is_target_open targets.now }
{
    10 * u64::from(targets.extremely) < 4 * u64::from(targets.expected)
}

/// The first day of the fiscal year of the day.
fn first_fiscal_day(plan: &Plan, day: Day) -> Day
    requires { plan.now.fiscal_month ≤ 12 }
    ensures { result ≡ first_fiscal_day plan.now day }
{
    first_of(first_fiscal_month(plan, month_of(day)))
}

fn first_fiscal_month(plan: &Plan, month: Month) -> Month
    requires { plan.now.fiscal_month ≤ 12 }
    ensures { result ≡ first_fiscal_month plan.now month }
{
    let year = (month.number() + 13 - plan.fiscal_month) / 12;
    let first = (12 * year + plan.fiscal_month).saturating_sub(13);
    Month::from_number(first).unwrap()
}
