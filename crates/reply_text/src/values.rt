//! Who is next, in JSON.

ghost use Rattle.std.specs.Prelude.{◌≡◌, IfOk, codes};
ghost use Rattle.serde_json.specs.View.{view, members_view};
ghost use Rattle.json_form.specs.Written.{or_null};
ghost use Rattle.reply_text.specs.Refusals.{candidate_data, one_member};

use crate::members::one;
use json_form::{Exact, Members};
use plain_data::NoMemory;
use std::alloc::Global;
use wait_list::Candidate;

/// Who is next, as the one member of an object.
pub fn next_member(alloc: Global, next: Option<Candidate>) -> Result<Members, NoMemory>
    ensures { IfOk result (λ all. members_view all.members.entries ≡ one_member (codes "next") (or_null candidate_data next)) }
{
    let next = next_value(alloc, next)?;
    Members::new(alloc).with_value("next", next)
}

/// Who is next: an applicant or a household, or null.
fn next_value(alloc: Global, next: Option<Candidate>) -> Result<Exact, NoMemory>
    ensures { IfOk result (λ exact. view exact.value ≡ or_null candidate_data next) }
{
    match next {
        Some(Candidate::Applicant(applicant)) => { Ok(one(alloc, "applicant", &applicant)?.done()) }
        Some(Candidate::Household(household)) => { Ok(one(alloc, "household", &household)?.done()) }
        None => Ok(Exact::null()),
    }
}
