//! Whether an act may come at all, and whether what it names is there, as the clerk saw it.

ghost use Rattle.std.specs.Prelude.{◌≡◌, is_some, false};
ghost use Rattle.std.specs.Option.{option_map_or};
ghost use Rattle.rent_table.specs.Table.{unit_at};
ghost use Rattle.wait_list.specs.Waiting.{is_listed};
ghost use Rattle.admission_order.specs.Below.office_step.declared.refusal.Named.TheVariants as named;
ghost use Rattle.admission_order.specs.Below.office_step.declared.refusal.Refusal.TheVariants as refusal;
ghost use Rattle.admission_order.specs.Below.office_step.Households.{record_at, rests_on_facts};
ghost use Rattle.admission_order.specs.Below.office_step.Matter.{own};
ghost use Rattle.admission_order.specs.Below.office_step.Refusals.{refused_unless};
ghost use Rattle.admission_order.specs.Below.office_step.Against.{none_such, is_household, may_be_named, no_plan, plan_given, book_full, no_such, stale, unseen};
ghost use Rattle.office_acts.specs.Matter.{matter_by};

use crate::matter::Matter;
use crate::refusing::{refused_if, refused_unless};
use admission_order::office_step::{Named, Refusal};
use days_core::{Day, Month};
use record_history::{Dates, Kind, Record};
use wait_list::Candidate;

/// Refused if it isn't a plan and none was accepted.
pub fn no_plan(about: &Matter) -> Option<Refusal>
    ensures { result ≡ no_plan (matter_by about.now) }
{
    let is_first = about.register.plan_act().is_none();
    refused_if(!about.gives_plan && is_first, Refusal::NoPlan)
}

/// Refused if it is a plan and one was accepted.
pub fn plan_given(about: &Matter) -> Option<Refusal>
    ensures { result ≡ plan_given (matter_by about.now) }
{
    if !about.gives_plan {
        return None;
    }
    let act = about.register.plan_act()?;
    Some(Refusal::PlanGiven { act })
}

/// Refused if the book holds as many acts as it may.
pub fn book_full(most: u32, about: &Matter) -> Option<Refusal>
    ensures { result ≡ book_full most (matter_by about.now) }
{
    let acts = about.register.count();
    refused_if(most <= acts, Refusal::BookFull { acts })
}

/// Refused if a number names nothing: the household's before that of what it has.
pub fn no_such(about: &Matter) -> Option<Refusal>
    ensures { result ≡ no_such (matter_by about.now) }
{
    stands!(no_household(about));
    stands!(no_applicant(about));
    stands!(no_unit(about));
    no_target(about)
}

fn no_household(about: &Matter) -> Option<Refusal>
    ensures { result ≡ none_such named.Household (is_household about.now.register.now.known) about.now.household }
{
    let household = about.household?;
    let is_there = 1 <= household && household <= about.register.households();
    none_such(Named::Household, is_there, household)
}

fn no_applicant(about: &Matter) -> Option<Refusal>
    ensures { result ≡ none_such named.Applicant (is_listed about.now.register.now.known.waiting) about.now.applicant }
{
    let applicant = about.applicant?;
    none_such(
        Named::Applicant,
        about.register.list().listed(applicant),
        applicant,
    )
}

fn no_unit(about: &Matter) -> Option<Refusal>
    ensures { result ≡ none_such named.Unit (λ unit. is_some (unit_at about.now.register.now.known.units unit)) about.now.unit }
{
    let unit = about.unit?;
    none_such(
        Named::Unit,
        about.register.table().unit(unit).is_some(),
        unit,
    )
}

fn no_target(about: &Matter) -> Option<Refusal>
    ensures { result ≡ none_such named.Record (λ target. option_map_or (may_be_named (matter_by about.now)) (record_at (own (matter_by about.now)) target) false) about.now.target }
{
    let target = about.target?;
    none_such(Named::Record, has_record(about, target), target)
}

fn has_record(about: &Matter, number: u32) -> bool
    ensures { result ≡ option_map_or (may_be_named (matter_by about.now)) (record_at (own (matter_by about.now)) number) false }
{
    match about
        .register
        .history()
        .record_at(about.household(), number)
    {
        Some(held) => !about.certifies() || rests_on_facts(held.kind),
        None => false,
    }
}

/// Of a kind that may be corrected: not a gross rent change, a transfer, a move-out, a termination or a withdrawal.
fn rests_on_facts(kind: Kind) -> bool
    ensures { result ≡ rests_on_facts kind }
{
    match kind {
        Kind::MI | Kind::IC | Kind::AR | Kind::IR => true,
        Kind::GR | Kind::UT | Kind::MO | Kind::TM | Kind::WD => false,
    }
}

fn none_such(what: Named, is_there: bool, id: u32) -> Option<Refusal>
    ensures { result ≡ refused_unless is_there (refusal.NoSuch what id) }
{
    refused_unless(is_there, Refusal::NoSuch { what, id })
}

/// Refused if the household has a newer record than the clerk saw.
pub fn stale(about: &Matter) -> Option<Refusal>
    ensures { result ≡ stale (matter_by about.now) }
{
    let seen = about.seen?;
    let newest = about.newest();
    refused_if(seen < newest, Refusal::Stale { newest })
}

/// Refused if the household has no record so new.
pub fn unseen(about: &Matter) -> Option<Refusal>
    ensures { result ≡ unseen (matter_by about.now) }
{
    let seen = about.seen?;
    let newest = about.newest();
    refused_if(newest < seen, Refusal::Unseen { newest })
}
