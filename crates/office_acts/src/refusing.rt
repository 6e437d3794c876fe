//! A refusal if a test stands, or unless it does.

ghost use Rattle.std.specs.Prelude.{◌≡◌};
ghost use Rattle.admission_order.specs.Below.office_step.Refusals.{refused_if, refused_unless};

use admission_order::office_step::Refusal;
use days_core::{Day, Month};
use wait_list::Candidate;

pub fn refused_if(test: bool, refusal: Refusal) -> Option<Refusal>
    ensures { result ≡ refused_if test refusal }
{
    if test { Some(refusal) } else { None }
}

pub fn refused_unless(test: bool, refusal: Refusal) -> Option<Refusal>
    ensures { result ≡ refused_unless test refusal }
{
    if test { None } else { Some(refusal) }
}
