//! What a record certifies, from facts or carried over.

ghost use Rattle.std.specs.Prelude.{◌≡◌, ◌≤◌, None, not, count_by};
ghost use Rattle.facts_core.specs.Rules.{broken_rule, eligible_members, is_aide};
ghost use Rattle.days_core.specs.RentBounds.{most_gross_rent};
ghost use Rattle.payment_rules.specs.Payment.{assistance_of};
ghost use Rattle.certified_figures.specs.Figures.{persons_of, size_of, annual_of, adjusted_of, ttp_of, figures_of, carried_figures, carried_assistance, AreEligible, IsFamily, FitsRecord};
ghost use Rattle.certified_figures.specs.Figures as figures;

use crate::Figures;
use days_core::{Day, Rents};
use deduction_rules::adjusted_income;
use facts_core::{Facts, Member, Relation, eligible_members};
use income_rules::annual_income;
use payment_rules::{payment, rent_split};
use record_history::Record;

/// What the facts of a household come to on a day, in a unit with these rents, by a passbook rate in hundredths of a
/// percent: for a move-in, an initial certification, a recertification and a correction (24 CFR 5.520, 5.609, 5.611, 5.628).
pub fn figures_of_facts(facts: &Facts, day: Day, passbook: u32, rents: Rents) -> Figures
    requires kept { broken_rule facts.now day ≡ None }
    requires rate { passbook ≤ 10000 }
    requires rent { rents.contract_rent ≤ 99999 }
    requires utility { rents.utility ≤ 9999 }
    ensures value { result ≡ figures_of facts.now day passbook rents }
    ensures family { IsFamily result }
    ensures eligible { AreEligible (eligible_members facts.now) result.size }
    ensures fits { FitsRecord result }
{
    let annual = annual_income(facts, day, passbook);
    let allowances = adjusted_income(facts, &annual, day);
    let size = family_size(facts, day);
    let eligible = family_eligible(facts, day);
    let payment = payment(
        annual.total,
        allowances.adjusted,
        facts.welfare,
        facts.exempt,
        rents,
        eligible,
        size,
    );
    Figures {
        persons: persons(facts, day),
        size,
        annual: annual.total,
        adjusted: allowances.adjusted,
        ttp: payment.ttp,
        rents,
        assistance: payment.assistance,
    }
}

/// How many live in the unit.
fn persons(facts: &Facts, day: Day) -> u32
    requires { broken_rule facts.now day ≡ None }
    ensures { result ≡ persons_of facts.now }
{
    facts.members.as_slice().len() as u32
}

/// The members of the family (24 CFR 5.403).
pub fn family_size(facts: &Facts, day: Day) -> u32
    requires { broken_rule facts.now day ≡ None }
    ensures value { result ≡ size_of facts.now }
    ensures one { 1 ≤ result }
    ensures few { result ≤ 12 }
    ensures persons { result ≤ persons_of facts.now }
    ensures few_persons { persons_of facts.now ≤ 16 }
{
    family_members(facts.members.as_slice()) as u32
}

/// Those of them who are eligible (24 CFR 5.520).
pub fn family_eligible(facts: &Facts, day: Day) -> u32
    requires { broken_rule facts.now day ≡ None }
    ensures value { result ≡ eligible_members facts.now }
    ensures some { 1 ≤ result }
    ensures among { result ≤ size_of facts.now }
{
    eligible_members(facts)
}

fn family_members(members: &[Member]) -> usize
    ensures { result ≡ count_by (λ member. not (is_aide member.relation)) members.now }
{
    members
        .iter()
        .filter(|member| member.relation != Relation::Aide)
        .count()
}

/// What the record certifies, split anew by these rents: for a gross rent change and for a transfer. Of the family's members
/// so many are `eligible`.
pub fn figures_carried(held: &Record, eligible: u32, rents: Rents) -> Figures
    requires eligible { AreEligible eligible held.now.size }
    requires rent { rents.contract_rent ≤ 99999 }
    requires utility { rents.utility ≤ 9999 }
    ensures value { result ≡ carried_figures held.now eligible rents }
    ensures fits { FitsRecord result }
{
    Figures {
        persons: held.persons,
        size: held.size,
        annual: held.annual,
        adjusted: held.adjusted,
        ttp: held.ttp,
        rents,
        assistance: assistance_carried(held, eligible, rents),
    }
}

/// What the office claims of these rents by what the record certifies: nothing if it certifies nobody.
fn assistance_carried(held: &Record, eligible: u32, rents: Rents) -> u32
    requires eligible { AreEligible eligible held.now.size }
    requires rent { rents.contract_rent ≤ 99999 }
    requires utility { rents.utility ≤ 9999 }
    ensures value { result ≡ carried_assistance held.now eligible rents }
    ensures within { result ≤ most_gross_rent }
{
    if held.size == 0 {
        return 0;
    }
    rent_split(held.ttp, rents, eligible, held.size).assistance
}

/// Nothing: of a move-out, a termination of assistance and a withdrawal.
pub fn no_figures() -> Figures
    ensures value { result ≡ figures.no_figures }
    ensures fits { FitsRecord result }
{
    Figures {
        persons: 0,
        size: 0,
        annual: 0,
        adjusted: 0,
        ttp: 0,
        rents: Rents {
            contract_rent: 0,
            utility: 0,
        },
        assistance: 0,
    }
}
