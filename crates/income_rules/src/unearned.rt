//! Unearned income.

ghost use Rattle.std.specs.Prelude.{◌≡◌, ◌+◌, ◌^◌, ◌<◌, length};
ghost use Rattle.facts_core.specs.Rules.{broken_rule};
ghost use Rattle.income_rules.specs.Income.{is_counted_whole, is_adoption, sum_of, counted_of_others, counted_unearned_of, unearned_of};

use crate::members::member_at;
use days_core::Day;
use facts_core::{Facts, Income, IncomeKind, Member, Relation};

/// The counted unearned income of all members.
pub fn unearned(facts: &Facts, day: Day) -> u32
    requires { broken_rule facts.now day ≡ None }
    ensures { result ≡ unearned_of facts.now }
{
    let mut total = 0;
    for number in 0..facts.members.as_slice().len() {
        total += counted_unearned(facts, number, day);
    }
    total
}

fn counted_unearned(facts: &Facts, member: usize, day: Day) -> u32
    requires kept { broken_rule facts.now day ≡ None }
    requires there { member < length facts.now.members }
    ensures { result ≡ counted_unearned_of facts.now member }
{
    let whole = counted_whole(facts.incomes.as_slice(), member);
    let adoption = adoption(facts.incomes.as_slice(), member);
    let receiver = member_at(facts.members.as_slice(), member);
    counted(receiver, whole, adoption)
}

fn counted_whole(incomes: &[Income], number: usize) -> u32
    requires { sum_of is_counted_whole incomes.now number < 2 ^ 32 }
    ensures { result ≡ sum_of is_counted_whole incomes.now number }
{
    incomes
        .iter()
        .filter(|income| income.member as usize == number && is_counted_whole(income.kind))
        .map(|income| income.annual)
        .sum()
}

fn adoption(incomes: &[Income], number: usize) -> u32
    requires { sum_of is_adoption incomes.now number < 2 ^ 32 }
    ensures { result ≡ sum_of is_adoption incomes.now number }
{
    incomes
        .iter()
        .filter(|income| income.member as usize == number && is_adoption(income.kind))
        .map(|income| income.annual)
        .sum()
}

fn is_counted_whole(kind: IncomeKind) -> bool
    ensures { result ≡ is_counted_whole kind }
{
    match kind {
        IncomeKind::Benefits | IncomeKind::Welfare | IncomeKind::Other => true,
        IncomeKind::Wages | IncomeKind::Business | IncomeKind::Adoption => false,
    }
}

fn is_adoption(kind: IncomeKind) -> bool
    ensures { result ≡ is_adoption kind }
{
    kind == IncomeKind::Adoption
}

fn counted(member: Member, whole: u32, adoption: u32) -> u32
    requires { whole + adoption < 2 ^ 32 }
    ensures { result ≡ counted_of_others member whole adoption }
{
    if member.relation == Relation::Aide {
        0
    } else {
        whole + adoption.min(480)
    }
}
