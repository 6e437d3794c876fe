//! The members that the rules ask for.

ghost use Rattle.std.specs.Prelude.{◌≡◌, ◌<◌, ◌≤◌, length, slice_get};
ghost use Rattle.income_rules.specs.Members.{is_head_or_partner, is_under};

use days_core::{Day, age_on};
use facts_core::{Member, Relation};

/// The member of that number.
pub fn member_at(members: &[Member], number: usize) -> Member
    requires { number < length members.now }
    ensures { slice_get members.now number ≡ Some result }
{
    members[number]
}

/// Whether the relation is that of the head, the spouse or the co-head.
pub fn is_head_or_partner(relation: Relation) -> bool
    ensures { result ≡ is_head_or_partner relation }
{
    match relation {
        Relation::Head | Relation::Spouse | Relation::Cohead => true,
        Relation::Other | Relation::Aide => false,
    }
}

/// Whether the member is younger on the day than so many years.
pub fn is_under(years: u32, member: Member, day: Day) -> bool
    requires { member.born ≤ day }
    ensures { result ≡ is_under years member day }
{
    age_on(member.born, day) < years
}
