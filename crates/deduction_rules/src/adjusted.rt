//! Adjusted income.

ghost use Rattle.std.specs.Prelude.{◌≡◌, ◌*◌};
ghost use Rattle.facts_core.specs.Rules.{broken_rule};
ghost use Rattle.deduction_rules.specs.Deductions.{dependents_of, elderly_deduction_of, child_care_of, medical_deduction_of, allowances_of};

use crate::Allowances;
use crate::earners::earned_by_cared;
use crate::expenses::{disability_deduction, medical_beyond, three_percent};
use crate::household::{dependents, has_young_child, is_elderly_family};
use days_core::Day;
use facts_core::Facts;
use income_rules::Annual;

/// What is deducted from the annual income of a family on a day, and its adjusted income (24 CFR 5.611).
pub fn adjusted_income(facts: &Facts, annual: &Annual, day: Day) -> Allowances
    requires { broken_rule facts.now day ≡ None }
    ensures { result ≡ allowances_of facts.now annual.now.total day }
{
    let dependents = dependents_deduction(facts, day);
    let elderly = elderly_deduction(facts, day);
    let care = child_care(facts, day);
    let disability = disability_deduction(facts, annual.total, day);
    let medical = medical_deduction(facts, annual.total, day);
    let deductions = dependents + elderly + care + disability + medical;
    Allowances {
        dependents,
        elderly,
        care,
        disability,
        medical,
        adjusted: annual.total.saturating_sub(deductions),
    }
}

fn dependents_deduction(facts: &Facts, day: Day) -> u32
    requires { broken_rule facts.now day ≡ None }
    ensures { result ≡ dependents_of facts.now day }
{
    480 * dependents(facts.members.as_slice(), day) as u32
}

fn elderly_deduction(facts: &Facts, day: Day) -> u32
    requires { broken_rule facts.now day ≡ None }
    ensures { result ≡ elderly_deduction_of facts.now day }
{
    if is_elderly_family(facts.members.as_slice(), day) {
        400
    } else {
        0
    }
}

fn child_care(facts: &Facts, day: Day) -> u32
    requires { broken_rule facts.now day ≡ None }
    ensures { result ≡ child_care_of facts.now day }
{
    if has_young_child(facts.members.as_slice(), day) {
        facts.care_work.min(earned_by_cared(facts, day)) + facts.care_school
    } else {
        0
    }
}

fn medical_deduction(facts: &Facts, annual: u32, day: Day) -> u32
    requires { broken_rule facts.now day ≡ None }
    ensures { result ≡ medical_deduction_of facts.now annual day }
{
    if is_elderly_family(facts.members.as_slice(), day) {
        medical_beyond(three_percent(annual), facts.disability, facts.medical)
    } else {
        0
    }
}
