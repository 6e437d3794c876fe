//! The eight rules that facts keep on a day.

ghost use Rattle.std.specs.Prelude.{◌≡◌, ◌≤◌, ◌&&◌, length, not, count_by, nat_lt, nat_le};
ghost use Rattle.std.specs.List.{list_all};
ghost use Rattle.facts_core.specs.Rules.{is_head, is_amount};
ghost use Rattle.facts_core.specs.Rules as rule;

use crate::facts::Facts;
use crate::incomes::Income;
use crate::members::{Member, Relation};
use crate::property::{Asset, Disposal};
use days_core::Day;

/// The most dollars of one amount.
const MOST: u32 = 9_999_999;

/// The least rule of the facts that is broken on a day, from 1 to 8, and None where they keep all.
///
/// 1: there is exactly one head. 2: spouses and co-heads together are at most one. 3: each income names a member.
/// 4: no amount is above 9,999,999. 5: no disposal received more than its value. 6: there are at most 12 members
/// other than aides, 16 members, 40 incomes, 40 assets and 40 disposals. 7: no birth is after the day. 8: at least one
/// member other than an aide is eligible.
pub fn broken_rule(facts: &Facts, day: Day) -> Option<u8>
    ensures { result ≡ rule.broken_rule facts.now day }
{
    if !has_one_head(facts) {
        return Some(1);
    }
    if !has_at_most_one_partner(facts) {
        return Some(2);
    }
    if !names_members(facts) {
        return Some(3);
    }
    if !has_amounts(facts) {
        return Some(4);
    }
    if !has_fair_disposals(facts) {
        return Some(5);
    }
    if !is_in_size(facts) {
        return Some(6);
    }
    if !has_births_by(facts, day) {
        return Some(7);
    }
    if !has_an_eligible_member(facts) {
        return Some(8);
    }
    None
}

fn has_one_head(facts: &Facts) -> bool
    ensures { result ≡ rule.has_one_head facts.now }
{
    heads(facts.members.as_slice()) == 1
}

fn heads(members: &[Member]) -> usize
    ensures { result ≡ count_by (λ member. is_head member.relation) members.now }
{
    members
        .iter()
        .filter(|member| member.relation == Relation::Head)
        .count()
}

fn has_at_most_one_partner(facts: &Facts) -> bool
    ensures { result ≡ rule.has_at_most_one_partner facts.now }
{
    partners(facts.members.as_slice()) <= 1
}

fn partners(members: &[Member]) -> usize
    ensures { result ≡ count_by (λ member. rule.is_partner member.relation) members.now }
{
    members
        .iter()
        .filter(|member| is_partner(member.relation))
        .count()
}

fn is_partner(relation: Relation) -> bool
    ensures { result ≡ rule.is_partner relation }
{
    match relation {
        Relation::Spouse | Relation::Cohead => true,
        Relation::Head | Relation::Other | Relation::Aide => false,
    }
}

fn names_members(facts: &Facts) -> bool
    ensures { result ≡ rule.names_members facts.now }
{
    let count = facts.members.as_slice().len();
    are_below(facts.incomes.as_slice(), count)
}

fn are_below(incomes: &[Income], count: usize) -> bool
    ensures { result ≡ list_all (λ income. nat_lt income.member count) incomes.now }
{
    incomes
        .iter()
        .all(|income| (income.member as usize) < count)
}

fn has_amounts(facts: &Facts) -> bool
    ensures { result ≡ rule.has_amounts facts.now }
{
    are_incomes(facts.incomes.as_slice())
        && (are_assets(facts.assets.as_slice())
            && (are_disposals(facts.disposals.as_slice()) && has_cost_amounts(facts)))
}

fn has_cost_amounts(facts: &Facts) -> bool
    ensures { result ≡ (is_amount facts.now.care_work && (is_amount facts.now.care_school && (is_amount facts.now.disability
        && (is_amount facts.now.medical && is_amount facts.now.welfare)))) }
{
    facts.care_work <= MOST
        && (facts.care_school <= MOST
            && (facts.disability <= MOST && (facts.medical <= MOST && facts.welfare <= MOST)))
}

fn are_incomes(incomes: &[Income]) -> bool
    ensures { result ≡ list_all (λ income. is_amount income.annual) incomes.now }
{
    incomes.iter().all(|income| income.annual <= MOST)
}

fn are_assets(assets: &[Asset]) -> bool
    ensures { result ≡ list_all (λ asset. is_amount asset.value && is_amount asset.income) assets.now }
{
    assets
        .iter()
        .all(|asset| asset.value <= MOST && asset.income <= MOST)
}

fn are_disposals(disposals: &[Disposal]) -> bool
    ensures { result ≡ list_all (λ disposal. is_amount disposal.value && is_amount disposal.received) disposals.now }
{
    disposals.iter().all(|disposal| disposal.value <= MOST && disposal.received <= MOST)
}

fn has_fair_disposals(facts: &Facts) -> bool
    ensures { result ≡ rule.has_fair_disposals facts.now }
{
    are_fair(facts.disposals.as_slice())
}

fn are_fair(disposals: &[Disposal]) -> bool
    ensures { result ≡ list_all (λ disposal. nat_le disposal.received disposal.value) disposals.now }
{
    disposals
        .iter()
        .all(|disposal| disposal.received <= disposal.value)
}

fn is_in_size(facts: &Facts) -> bool
    ensures { result ≡ rule.is_in_size facts.now }
{
    family_size(facts.members.as_slice()) <= 12
        && (facts.members.as_slice().len() <= 16
            && (facts.incomes.as_slice().len() <= 40
                && (facts.assets.as_slice().len() <= 40 && facts.disposals.as_slice().len() <= 40)))
}

fn family_size(members: &[Member]) -> usize
    ensures { result ≡ count_by (λ member. not (rule.is_aide member.relation)) members.now }
{
    members
        .iter()
        .filter(|member| member.relation != Relation::Aide)
        .count()
}

fn has_births_by(facts: &Facts, day: Day) -> bool
    ensures { result ≡ rule.has_births_by facts.now day }
{
    are_born_by(facts.members.as_slice(), day)
}

fn are_born_by(members: &[Member], day: Day) -> bool
    ensures { result ≡ list_all (λ member. nat_le member.born day) members.now }
{
    members.iter().all(|member| member.born <= day)
}

fn has_an_eligible_member(facts: &Facts) -> bool
    ensures { result ≡ rule.has_an_eligible_member facts.now }
{
    eligible_among(facts.members.as_slice()) > 0
}

/// The members other than aides who are eligible for assistance (24 CFR 5.520).
pub fn eligible_members(facts: &Facts) -> u32
    requires few { length facts.now.members ≤ 16 }
    ensures { result ≡ rule.eligible_members facts.now }
{
    eligible_among(facts.members.as_slice()) as u32
}

fn eligible_among(members: &[Member]) -> usize
    ensures { result ≡ count_by rule.is_eligible members.now }
{
    members
        .iter()
        .filter(|member| member.relation != Relation::Aide && member.eligible)
        .count()
}
