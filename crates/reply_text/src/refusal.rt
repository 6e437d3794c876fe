//! Refusals in JSON, each with its number, name and fields.

ghost use Rattle.std.specs.Prelude.{◌≡◌, IfOk};
ghost use Rattle.serde_json.specs.View.{view, members_view};
ghost use Rattle.office_answers.specs.Below.office_step.Numbers.{number_of, name_of};
ghost use Rattle.reply_text.specs.Refusals.{refusal_members, named_word, refusal_data, failure_data};

use crate::members::{one, two};
use crate::values::next_member;
use json_form::{Exact, Members, refused};
use office_answers::office_step::{Named, Refusal};
use plain_data::NoMemory;
use std::alloc::Global;

/// Why the office refuses.
pub fn refusal_value(alloc: Global, why: &Refusal) -> Result<Exact, NoMemory>
    ensures { IfOk result (λ exact. view exact.value ≡ refusal_data why.now) }
{
    let (number, name) = number_and_name(why);
    let cause = members_of(alloc, why)?
        .with("kind", &name)?
        .with("number", &number)?;
    refused(alloc, cause)
}

/// The refusal that has that kind alone.
pub fn failure_value(alloc: Global, kind: &str) -> Result<Exact, NoMemory>
    ensures { IfOk result (λ exact. view exact.value ≡ failure_data kind.now) }
{
    refused(alloc, Members::new(alloc).with("kind", &kind)?)
}

fn members_of(alloc: Global, why: &Refusal) -> Result<Members, NoMemory>
    ensures { IfOk result (λ all. members_view all.members.entries ≡ refusal_members why.now) }
{
    match why {
        Refusal::RequestReused { act } => one(alloc, "act", act),
        Refusal::NoPlan => Ok(Members::new(alloc)),
        Refusal::PlanGiven { act } => one(alloc, "act", act),
        Refusal::BookFull { acts } => one(alloc, "acts", acts),
        Refusal::NoSuch { what, id } => two(alloc, "id", id, "what", &named_word(*what)),
        Refusal::Stale { newest } => one(alloc, "newest", newest),
        Refusal::Unseen { newest } => one(alloc, "newest", newest),
        Refusal::FactsRule { rule } => one(alloc, "rule", &u32::from(*rule)),
        Refusal::DayRange { first, last } => two(alloc, "first", first, "last", last),
        Refusal::NoRent { group, day } => two(alloc, "group", group, "day", day),
        Refusal::NoLimits { day } => one(alloc, "day", day),
        Refusal::NotLive { target } => one(alloc, "record", target),
        Refusal::WrongDay { right } => one(alloc, "right", right),
        Refusal::Disorder { target } => one(alloc, "record", target),
        Refusal::NameTaken { unit } => one(alloc, "unit", unit),
        Refusal::SizeMisfit { unit, size } => two(alloc, "unit", unit, "size", size),
        Refusal::UnitTaken { household, day } => two(alloc, "household", household, "day", day),
        Refusal::NotNext { next } => next_member(alloc, *next),
        Refusal::Ineligible { limit, annual } => two(alloc, "limit", limit, "annual", annual),
        Refusal::NoAssistance { ttp, gross } => two(alloc, "ttp", ttp, "gross", gross),
        Refusal::WrongMonth { next } => one(alloc, "next", next),
        Refusal::RentDue {
            household,
            target,
            day,
        } => two(alloc, "household", household, "record", target)?.with("day", day),
        Refusal::Overdue {
            household,
            anniversary,
        } => two(alloc, "household", household, "anniversary", anniversary),
        Refusal::LinesFull { lines, more } => two(alloc, "lines", lines, "more", more),
    }
}

fn named_word(what: Named) -> &'static str
    ensures { result.now ≡ named_word what }
{
    match what {
        Named::Household => "household",
        Named::Applicant => "applicant",
        Named::Unit => "unit",
        Named::Record => "record",
    }
}

/// Its place in the one order, and its name.
fn number_and_name(why: &Refusal) -> (u32, &'static str)
    ensures number { result.0 ≡ number_of why.now }
    ensures name { result.1.now ≡ name_of why.now }
{
    match why {
        Refusal::RequestReused { .. } => (1, "RequestReused"),
        Refusal::NoPlan => (2, "NoPlan"),
        Refusal::PlanGiven { .. } => (3, "PlanGiven"),
        Refusal::BookFull { .. } => (4, "BookFull"),
        Refusal::NoSuch { .. } => (5, "NoSuch"),
        Refusal::Stale { .. } => (6, "Stale"),
        Refusal::Unseen { .. } => (7, "Unseen"),
        Refusal::FactsRule { .. } => (8, "FactsRule"),
        Refusal::DayRange { .. } => (9, "DayRange"),
        Refusal::NoRent { .. } => (10, "NoRent"),
        Refusal::NoLimits { .. } => (11, "NoLimits"),
        Refusal::NotLive { .. } => (12, "NotLive"),
        Refusal::WrongDay { .. } => (13, "WrongDay"),
        Refusal::Disorder { .. } => (14, "Disorder"),
        Refusal::NameTaken { .. } => (15, "NameTaken"),
        Refusal::SizeMisfit { .. } => (16, "SizeMisfit"),
        Refusal::UnitTaken { .. } => (17, "UnitTaken"),
        Refusal::NotNext { .. } => (18, "NotNext"),
        Refusal::Ineligible { .. } => (19, "Ineligible"),
        Refusal::NoAssistance { .. } => (20, "NoAssistance"),
        Refusal::WrongMonth { .. } => (21, "WrongMonth"),
        Refusal::RentDue { .. } => (22, "RentDue"),
        Refusal::Overdue { .. } => (23, "Overdue"),
        Refusal::LinesFull { .. } => (24, "LinesFull"),
    }
}
