//! Earned income.

ghost use Rattle.std.specs.Prelude.{◌≡◌, ◌^◌, ◌<◌, ◌≤◌, length};
ghost use Rattle.facts_core.specs.Rules.{broken_rule};
ghost use Rattle.income_rules.specs.Income.{is_earned, sum_of, counted_of_earnings, counted_earned_of, earned_of};

use crate::members::{is_head_or_partner, is_under, member_at};
use days_core::Day;
use facts_core::{Facts, Income, IncomeKind, Member, Relation};

/// What is counted of the earned income of the member of that number, in whole dollars a year.
///
/// Sources: 24 CFR 5.609(c)(1), (5) and (11).
pub fn counted_earned(facts: &Facts, member: usize, day: Day) -> u32
    requires kept { broken_rule facts.now day ≡ None }
    requires there { member < length facts.now.members }
    ensures { result ≡ counted_earned_of facts.now member day }
{
    let earnings = earnings(facts.incomes.as_slice(), member);
    let earner = member_at(facts.members.as_slice(), member);
    counted(earner, day, earnings)
}

/// The counted earned income of all members.
pub fn earned(facts: &Facts, day: Day) -> u32
    requires { broken_rule facts.now day ≡ None }
    ensures { result ≡ earned_of facts.now day }
{
    let mut total = 0;
    for number in 0..facts.members.as_slice().len() {
        total += counted_earned(facts, number, day);
    }
    total
}

fn earnings(incomes: &[Income], number: usize) -> u32
    requires { sum_of is_earned incomes.now number < 2 ^ 32 }
    ensures { result ≡ sum_of is_earned incomes.now number }
{
    incomes
        .iter()
        .filter(|income| income.member as usize == number && is_earned(income.kind))
        .map(|income| income.annual)
        .sum()
}

fn is_earned(kind: IncomeKind) -> bool
    ensures { result ≡ is_earned kind }
{
    match kind {
        IncomeKind::Wages | IncomeKind::Business => true,
        IncomeKind::Benefits | IncomeKind::Welfare | IncomeKind::Adoption | IncomeKind::Other => {
            false
        }
    }
}

fn counted(member: Member, day: Day, earnings: u32) -> u32
    requires { member.born ≤ day }
    ensures { result ≡ counted_of_earnings member day earnings }
{
    if member.relation == Relation::Aide {
        0
    } else if is_head_or_partner(member.relation) {
        earnings
    } else if is_under(18, member, day) {
        0
    } else if member.student {
        earnings.min(480)
    } else {
        earnings
    }
}
