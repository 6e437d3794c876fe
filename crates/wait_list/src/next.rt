//! The one who is next, of applicants in the order in which they stand.

ghost use Rattle.std.specs.Prelude.{◌≡◌, ◌≤◌, ◌&&◌, filter, find};
ghost use Rattle.std.specs.Option.{option_copied, option_or};
ghost use Rattle.wait_list.specs.Waiting.{HaveSizes, IsSize};
ghost use Rattle.wait_list.specs.Next.{asked_by, is_within_limit, is_extremely_low, is_candidate, candidates, stands_behind, first_of, next_of, next_applicant, mover_of, next_candidate};
ghost use Rattle.wait_list.specs.Group.{is_of, candidates_of};
ghost use Rattle.wait_list.specs.Ranked.{StandInOrder};

use crate::{Applicant, Ask, Candidate};
use rent_table::{admission_limit, has_extremely_low_income, suits};

/// Which applicants a scan looks at.
#[derive(Clone, Copy)]
pub enum Group {
    /// Those who need accessible features that the unit has.
    Needing,
    /// The others.
    NotNeeding,
}

/// Who is next for a unit, where these applicants wait, each before those that stand behind it.
pub fn next_among(ranked: &[Applicant], ask: &Ask) -> Option<Candidate>
    requires bedrooms { ask.now.unit.now.bedrooms ≤ 5 }
    requires sizes { HaveSizes ranked.now }
    requires in_order { StandInOrder ranked.now }
    ensures { result ≡ next_candidate (asked_by ask.now) ranked.now }
{
    let needing = mover_or_applicant(ranked, ask, ask.needing, Group::Needing);
    if needing.is_some() {
        needing
    } else {
        mover_or_applicant(ranked, ask, ask.other, Group::NotNeeding)
    }
}

/// The mover, if there is one, else the applicant of the group who is next.
fn mover_or_applicant(
    ranked: &[Applicant],
    ask: &Ask,
    mover: Option<u32>,
    group: Group,
) -> Option<Candidate>
    requires bedrooms { ask.now.unit.now.bedrooms ≤ 5 }
    requires sizes { HaveSizes ranked.now }
    requires in_order { StandInOrder ranked.now }
    ensures { result ≡ option_or (mover_of mover) (next_applicant (asked_by ask.now) (is_of (asked_by ask.now) group) ranked.now) }
{
    match mover {
        Some(household) => Some(Candidate::Household(household)),
        None => next_applicant(ranked, ask, group),
    }
}

fn next_applicant(ranked: &[Applicant], ask: &Ask, group: Group) -> Option<Candidate>
    requires bedrooms { ask.now.unit.now.bedrooms ≤ 5 }
    requires sizes { HaveSizes ranked.now }
    requires in_order { StandInOrder ranked.now }
    ensures { result ≡ next_applicant (asked_by ask.now) (is_of (asked_by ask.now) group) ranked.now }
{
    next_of(ranked, ask, group).map(|applicant| Candidate::Applicant(applicant.number))
}

fn next_of<'a>(ranked: &'a [Applicant], ask: &Ask, group: Group) -> Option<&'a Applicant>
    requires bedrooms { ask.now.unit.now.bedrooms ≤ 5 }
    requires sizes { HaveSizes ranked.now }
    requires in_order { StandInOrder ranked.now }
    ensures { let asked = asked_by ask.now in option_copied result ≡ next_of asked (candidates_of asked group ranked.now) }
{
    let first = first_of(ranked, ask, group);
    if ask.wanted {
        first_extremely_low(ranked, ask, group).or(first)
    } else {
        first
    }
}

/// The first of a group who could be admitted.
fn first_of<'a>(ranked: &'a [Applicant], ask: &Ask, group: Group) -> Option<&'a Applicant>
    requires bedrooms { ask.now.unit.now.bedrooms ≤ 5 }
    requires sizes { HaveSizes ranked.now }
    requires in_order { StandInOrder ranked.now }
    ensures { option_copied result ≡ first_of (candidates_of (asked_by ask.now) group ranked.now) }
{
    find_candidate(ranked, ask, group)
}

fn find_candidate<'a>(ranked: &'a [Applicant], ask: &Ask, group: Group) -> Option<&'a Applicant>
    requires bedrooms { ask.now.unit.now.bedrooms ≤ 5 }
    requires sizes { HaveSizes ranked.now }
    ensures { option_copied result ≡ find (λ applicant. is_candidate (asked_by ask.now) applicant && is_of (asked_by ask.now) group applicant) ranked.now }
{
    for applicant in ranked {
        if group.has(ask, applicant) && is_candidate(ask, applicant) {
            return Some(applicant);
        }
    }
    None
}

/// The first of a group who could be admitted and has extremely low income.
fn first_extremely_low<'a>(
    ranked: &'a [Applicant],
    ask: &Ask,
    group: Group,
) -> Option<&'a Applicant>
    requires bedrooms { ask.now.unit.now.bedrooms ≤ 5 }
    requires sizes { HaveSizes ranked.now }
    requires in_order { StandInOrder ranked.now }
    ensures { let asked = asked_by ask.now in
        option_copied result ≡ first_of (filter (is_extremely_low asked) (candidates_of asked group ranked.now)) }
{
    find_extremely_low(ranked, ask, group)
}

fn find_extremely_low<'a>(ranked: &'a [Applicant], ask: &Ask, group: Group) -> Option<&'a Applicant>
    requires bedrooms { ask.now.unit.now.bedrooms ≤ 5 }
    requires sizes { HaveSizes ranked.now }
    ensures { option_copied result ≡ find (λ applicant. (is_candidate (asked_by ask.now) applicant && is_of (asked_by ask.now) group applicant) && is_extremely_low (asked_by ask.now) applicant) ranked.now }
{
    for applicant in ranked {
        if group.has(ask, applicant)
            && is_candidate(ask, applicant)
            && is_extremely_low(ask, applicant)
        {
            return Some(applicant);
        }
    }
    None
}

/// Whether the other stands before the applicant.
pub fn stands_behind(applicant: &Applicant, other: &Applicant) -> bool
    ensures { result ≡ stands_behind applicant.now other.now }
{
    other.rank < applicant.rank || other.rank == applicant.rank && other.act < applicant.act
}

impl Group {
    fn has(self, ask: &Ask, applicant: &Applicant) -> bool
        ensures { result ≡ is_of (asked_by ask.now) self applicant.now }
    {
        let needs = ask.unit.accessible && applicant.accessible;
        match self {
            Group::Needing => needs,
            Group::NotNeeding => !needs,
        }
    }
}

fn is_candidate(ask: &Ask, applicant: &Applicant) -> bool
    requires bedrooms { ask.now.unit.now.bedrooms ≤ 5 }
    requires size { IsSize applicant.now.size }
    ensures { result ≡ is_candidate (asked_by ask.now) applicant.now }
{
    suits(ask.plan, ask.unit, applicant.persons) && is_within_limit(ask, applicant)
}

fn is_within_limit(ask: &Ask, applicant: &Applicant) -> bool
    requires { IsSize applicant.now.size }
    ensures { result ≡ is_within_limit (asked_by ask.now) applicant.now }
{
    match ask.limits {
        Some(limits) => applicant.annual <= admission_limit(ask.plan, limits, applicant.size),
        None => false,
    }
}

fn is_extremely_low(ask: &Ask, applicant: &Applicant) -> bool
    requires { IsSize applicant.now.size }
    ensures { result ≡ is_extremely_low (asked_by ask.now) applicant.now }
{
    match ask.limits {
        Some(limits) => has_extremely_low_income(limits, applicant.size, applicant.annual),
        None => false,
    }
}
