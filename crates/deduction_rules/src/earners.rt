//! Whose earnings an expense makes possible.

ghost use Rattle.std.specs.Prelude.{◌≡◌, ◌<◌, ◌≤◌, false, length, if◌then◌else◌, slice_get};
ghost use Rattle.std.specs.Option.{option_map_or};
ghost use Rattle.facts_core.specs.Rules.{broken_rule};
ghost use Rattle.income_rules.specs.Income.{counted_earned_of};
ghost use Rattle.deduction_rules.specs.Deductions.{earned_by, is_helped_adult};

use days_core::Day;
use facts_core::{Facts, Member};
use income_rules::{counted_earned, is_under, member_at};

/// The counted earned income of those whose earning child care makes possible.
pub fn earned_by_cared(facts: &Facts, day: Day) -> u32
    requires { broken_rule facts.now day ≡ None }
    ensures { result ≡ earned_by (λ member. member.cared) facts.now day }
{
    let mut total = 0;
    for number in 0..facts.members.as_slice().len() {
        total += earned_if_cared(facts, number, day);
    }
    total
}

fn earned_if_cared(facts: &Facts, number: usize, day: Day) -> u32
    requires kept { broken_rule facts.now day ≡ None }
    requires there { number < length facts.now.members }
    ensures { result ≡ (if option_map_or (λ member. member.cared) (slice_get facts.now.members number) false
        then counted_earned_of facts.now number day else 0) }
{
    if member_at(facts.members.as_slice(), number).cared {
        counted_earned(facts, number, day)
    } else {
        0
    }
}

/// The counted earned income of the adults whose earning disability assistance makes possible.
pub fn earned_by_helped(facts: &Facts, day: Day) -> u32
    requires { broken_rule facts.now day ≡ None }
    ensures { result ≡ earned_by (is_helped_adult day) facts.now day }
{
    let mut total = 0;
    for number in 0..facts.members.as_slice().len() {
        total += earned_if_helped(facts, number, day);
    }
    total
}

fn earned_if_helped(facts: &Facts, number: usize, day: Day) -> u32
    requires kept { broken_rule facts.now day ≡ None }
    requires there { number < length facts.now.members }
    ensures { result ≡ (if option_map_or (is_helped_adult day) (slice_get facts.now.members number) false
        then counted_earned_of facts.now number day else 0) }
{
    if is_helped_adult(member_at(facts.members.as_slice(), number), day) {
        counted_earned(facts, number, day)
    } else {
        0
    }
}

fn is_helped_adult(member: Member, day: Day) -> bool
    requires { member.born ≤ day }
    ensures { result ≡ is_helped_adult day member }
{
    member.helped && !is_under(18, member, day)
}
