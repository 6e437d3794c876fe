//! Whether whoever moves in is next, and whether assistance may begin.

ghost use Rattle.std.specs.Prelude.{◌≡◌, is_some, true, false, IfSome};
ghost use Rattle.std.specs.Option.{option_map_or};
ghost use Rattle.admission_order.specs.Below.office_step.Made.{record_in};
ghost use Rattle.admission_order.specs.Below.office_step.Against.{is_same_candidate, not_next, ineligible, no_assistance};
ghost use Rattle.office_acts.specs.Judged.{IsMade, HasSize};
ghost use Rattle.office_acts.specs.Matter.{matter_by};

use crate::matter::Matter;
use crate::moves::moving_of;
use crate::refusing::{refused_if, refused_unless};
use admission_order::next_for;
use admission_order::office_step::Refusal;
use days_core::{Day, Month};
use record_history::{Dates, Record};
use rent_table::admission_limit;
use wait_list::Candidate;

/// Refused if another is next for the unit that is moved into, or nobody is.
pub fn not_next(about: &Matter) -> Option<Refusal>
    ensures { result ≡ not_next (matter_by about.now) }
{
    let Some(moving) = moving_of(about) else {
        return None;
    };
    let next = next_for(about.register, moving.plan, moving.unit, moving.from);
    refused_unless(is_next(next, moving.candidate), Refusal::NotNext { next })
}

fn is_next(next: Option<Candidate>, asked: Candidate) -> bool
    ensures { result ≡ option_map_or (λ c. is_same_candidate c asked) next false }
{
    match next {
        Some(candidate) => is_same_candidate(candidate, asked),
        None => false,
    }
}

fn is_same_candidate(candidate: Candidate, asked: Candidate) -> bool
    ensures { result ≡ is_same_candidate candidate asked }
{
    candidate == asked
}

/// Refused if the income of who is admitted is above the limit of the family's size.
pub fn ineligible(about: &Matter, made: &Option<Record>) -> Option<Refusal>
    requires value { made.now ≡ record_in (matter_by about.now) }
    requires size { is_some about.now.applicant ≡ true → IfSome made.now HasSize }
    ensures { result ≡ ineligible (matter_by about.now) }
{
    let _applicant = about.applicant?;
    let made = made.as_ref()?;
    let limits = about.register.table().limits_on(made.from)?;
    let limit = admission_limit(about.register.plan()?, limits, made.size);
    let annual = made.annual;
    refused_if(limit < annual, Refusal::Ineligible { limit, annual })
}

/// Refused if assistance would begin for a household for which there is none to pay.
pub fn no_assistance(about: &Matter, made: &Option<Record>) -> Option<Refusal>
    requires value { made.now ≡ record_in (matter_by about.now) }
    requires made { IfSome made.now (IsMade about.now.register.now.known) }
    ensures { result ≡ no_assistance (matter_by about.now) }
{
    if !about.begins {
        return None;
    }
    let made = made.as_ref()?;
    let (ttp, gross) = (made.ttp, made.rents.contract_rent + made.rents.utility);
    refused_if(made.assistance == 0, Refusal::NoAssistance { ttp, gross })
}
