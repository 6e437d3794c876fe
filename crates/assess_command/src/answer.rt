//! The answer of `assess`.

ghost use Rattle.std.specs.Prelude.{◌≡◌, ◌≤◌, None, IfOk};
ghost use Rattle.facts_core.specs.Rules.{broken_rule};
ghost use Rattle.assess_command.specs.Assess.{answer_to, assessed, figures, line, household_annual, household_adjusted, household_payment};
ghost use Rattle.assess_command.specs.Household.{household_from};
ghost use Rattle.json_form.specs.Gives.{Gives};

use crate::household::{Household, household_of};
use crate::text::{bad_facts, figures, line_of};
use certified_figures::{family_eligible, family_size};
use deduction_rules::adjusted_income;
use facts_core::broken_rule;
use income_rules::annual_income;
use json_form::{FormFault, bad_form, value_of_bytes};
use payment_rules::payment;
use plain_data::{NoMemory, Text};
use std::alloc::Global;

/// What an assess object is answered with: a line of JSON, with its line end.
#[derive(Debug, PartialEq, Eq, Drop)]
pub enum Assessed {
    /// The figures of the payment.
    Paid(Text),
    /// The refusal.
    Refused(Text),
}

/// The answer to the bytes of an assess object.
pub fn assess(alloc: Global, input: &[u8]) -> Result<Assessed, NoMemory>
    ensures { IfOk result (λ answer. answer ≡ assessed input.now) }
{
    match household_from(alloc, input) {
        Ok(household) => answer_of(alloc, &household),
        Err(FormFault::BadField(path)) => {
            let refusal = bad_form(alloc, path.as_str())?;
            Ok(Assessed::Refused(line_of(alloc, &refusal)?))
        }
        Err(FormFault::NoMemory) => Err(NoMemory),
    }
}

fn household_from(alloc: Global, input: &[u8]) -> Result<Household, FormFault>
    ensures exact { Gives (λ household. household) result (household_from input.now) }
    ensures rate { IfOk result (λ household. household.passbook ≤ 10000) }
    ensures rent { IfOk result (λ household. household.rents.contract_rent ≤ 99999) }
    ensures utility { IfOk result (λ household. household.rents.utility ≤ 9999) }
{
    let value = value_of_bytes(alloc, input)?;
    household_of(alloc, &value)
}

fn answer_of(alloc: Global, household: &Household) -> Result<Assessed, NoMemory>
    requires rate { household.now.passbook ≤ 10000 }
    requires rent { household.now.rents.contract_rent ≤ 99999 }
    requires utility { household.now.rents.utility ≤ 9999 }
    ensures { IfOk result (λ answer. answer ≡ answer_to (Ok household.now)) }
{
    match broken_rule(&household.facts, household.day) {
        None => Ok(Assessed::Paid(payment_line(alloc, household)?)),
        Some(rule) => {
            let refusal = bad_facts(alloc, rule)?;
            Ok(Assessed::Refused(line_of(alloc, &refusal)?))
        }
    }
}

fn payment_line(alloc: Global, household: &Household) -> Result<Text, NoMemory>
    requires kept { broken_rule household.now.facts household.now.day ≡ None }
    requires rate { household.now.passbook ≤ 10000 }
    requires rent { household.now.rents.contract_rent ≤ 99999 }
    requires utility { household.now.rents.utility ≤ 9999 }
    ensures { IfOk result (λ text. text ≡ line (figures (household_annual household.now) (household_adjusted household.now)
        (household_payment household.now))) }
{
    let Household {
        day,
        passbook,
        rents,
        facts,
    } = household;
    let annual = annual_income(facts, *day, *passbook);
    let allowances = adjusted_income(facts, &annual, *day);
    let payment = payment(
        annual.total,
        allowances.adjusted,
        facts.welfare,
        facts.exempt,
        *rents,
        family_eligible(facts, *day),
        family_size(facts, *day),
    );
    let figures = figures(alloc, annual.total, allowances.adjusted, &payment)?;
    line_of(alloc, &figures)
}
