//! What a household is, as the deductions ask for it.

ghost use Rattle.std.specs.Prelude.{◌≡◌, ◌*◌, ◌≤◌, All, count_by, length};
ghost use Rattle.std.specs.List.{list_any};
ghost use Rattle.deduction_rules.specs.Deductions.{is_other, is_dependent, is_elderly_or_disabled, is_young_child};

use days_core::{Day, age_on};
use facts_core::{Member, Relation};
use income_rules::{is_head_or_partner, is_under};

pub fn dependents(members: &[Member], day: Day) -> usize
    requires { All (λ member. member.born ≤ day) members.now }
    ensures { result ≡ count_by (is_dependent day) members.now }
{
    members
        .iter()
        .filter(|member| is_dependent(**member, day))
        .count()
}

pub fn is_elderly_family(members: &[Member], day: Day) -> bool
    requires { All (λ member. member.born ≤ day) members.now }
    ensures { result ≡ list_any (is_elderly_or_disabled day) members.now }
{
    members
        .iter()
        .any(|member| is_elderly_or_disabled(*member, day))
}

pub fn has_young_child(members: &[Member], day: Day) -> bool
    requires { All (λ member. member.born ≤ day) members.now }
    ensures { result ≡ list_any (is_young_child day) members.now }
{
    members.iter().any(|member| is_young_child(*member, day))
}

fn is_dependent(member: Member, day: Day) -> bool
    requires { member.born ≤ day }
    ensures { result ≡ is_dependent day member }
{
    member.relation == Relation::Other
        && (is_under(18, member, day) || (member.disabled || member.student))
}

fn is_elderly_or_disabled(member: Member, day: Day) -> bool
    requires { member.born ≤ day }
    ensures { result ≡ is_elderly_or_disabled day member }
{
    is_head_or_partner(member.relation) && (age_on(member.born, day) >= 62 || member.disabled)
}

fn is_young_child(member: Member, day: Day) -> bool
    requires { member.born ≤ day }
    ensures { result ≡ is_young_child day member }
{
    member.relation != Relation::Aide && is_under(13, member, day)
}
