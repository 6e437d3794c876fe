//! The facts and days of an act, and whether the tables have what its record needs.

ghost use Rattle.std.specs.Prelude.{◌≡◌, option_and_then};
ghost use Rattle.std.specs.Option.{option_map_or};
ghost use Rattle.days_core.specs.OfficeDays.{last_office_day};
ghost use Rattle.record_history.specs.Records.{live_records};
ghost use Rattle.admission_order.specs.Below.office_step.Made.{heading_in, record_in};
ghost use Rattle.admission_order.specs.Below.office_step.declared.rightful.Rightful.TheVariants as rightful;
ghost use Rattle.admission_order.specs.Below.office_step.Households.{AreBy, record_at};
ghost use Rattle.admission_order.specs.Below.office_step.Matter.{own};
ghost use Rattle.admission_order.specs.Below.office_step.Refusals.{first_of, interim_right, corrected_right};
ghost use Rattle.admission_order.specs.Below.office_step.Against.{facts_rule, outside, told_days, day_range, no_rent, no_rent_on, no_limits, not_live, by_payment, own_right, right_of, wrong_day};
ghost use Rattle.office_acts.specs.Judged.{IsInTime};
ghost use Rattle.office_acts.specs.Matter.{matter_by};

use crate::lookups::target_in;
use crate::matter::Matter;
use crate::refusing::refused_unless;
use admission_order::office_refusals::{
    Basis, annual_right, corrected_right, interim_right, resume_right,
};
use admission_order::office_step::{Heading, Refusal, Rightful};
use days_core::{Day, FIRST_OFFICE_DAY, LAST_OFFICE_DAY, Month};
use due_dates::gross_day;
use facts_core::broken_rule;
use record_history::{Dates, Kind, Record};
use wait_list::Candidate;

/// 2099-12-30.
const LAST_DAY_LIVED: u32 = LAST_OFFICE_DAY - 1;

/// Refused if the facts break a rule on the first day of the record.
pub fn facts_rule(about: &Matter) -> Option<Refusal>
    ensures { result ≡ facts_rule (matter_by about.now) }
{
    let from = about.from?;
    match about.basis {
        Basis::Facts(facts) => Some(Refusal::FactsRule {
            rule: broken_rule(facts, from)?,
        }),
        _ => None,
    }
}

/// Refused if a day lies outside its range, in the order of the fields.
pub fn day_range(today: Day, about: &Matter) -> Option<Refusal>
    ensures { result ≡ day_range today (matter_by about.now) }
{
    let first = Day::from_number(FIRST_OFFICE_DAY).unwrap();
    let last = Day::from_number(LAST_OFFICE_DAY).unwrap();
    let last_lived = Day::from_number(LAST_DAY_LIVED).unwrap();
    let plan_day = about.register.plan_day();
    stands!(outside(first, last, about.sets_from));
    stands!(told_range(today, about.told));
    stands!(outside(plan_day, last, about.from));
    outside(plan_day, last_lived, about.last)
}

/// Of the days of a change that was told.
fn told_range(today: Day, told: Option<Dates>) -> Option<Refusal>
    ensures { result ≡ option_and_then (λ dates. first_of (told_days today dates)) told }
{
    let dates = told?;
    let first = Day::from_number(FIRST_OFFICE_DAY).unwrap();
    stands!(outside(first, today, Some(dates.event)));
    stands!(outside(dates.event, today, Some(dates.notice)));
    outside(dates.notice, today, Some(dates.done))
}

fn outside(first: Day, last: Day, day: Option<Day>) -> Option<Refusal>
    ensures { result ≡ option_and_then (outside first last) day }
{
    let day = day?;
    refused_unless(
        first <= day && day <= last,
        Refusal::DayRange { first, last },
    )
}

/// Refused if the unit of the record has no rents on its first day, unless it certifies nothing.
pub fn no_rent(about: &Matter, heading: &Option<Heading>) -> Option<Refusal>
    requires { heading.now ≡ heading_in (matter_by about.now) }
    ensures { result ≡ no_rent (matter_by about.now) }
{
    if about.certifies() {
        no_rent_on(about, heading)
    } else {
        None
    }
}

/// A unit that isn't there is another refusal's matter.
fn no_rent_on(about: &Matter, heading: &Option<Heading>) -> Option<Refusal>
    ensures { result ≡ option_and_then (no_rent_on about.now.register.now.known) heading.now }
{
    let heading = heading.as_ref()?;
    let table = about.register.table();
    let (group, day) = (table.unit(heading.unit)?.group, heading.from);
    refused_unless(
        table.rents_on(group, day).is_some(),
        Refusal::NoRent { group, day },
    )
}

/// Refused if no income limits stand on the first day of a move-in.
pub fn no_limits(about: &Matter, heading: &Option<Heading>) -> Option<Refusal>
    requires { heading.now ≡ heading_in (matter_by about.now) }
    ensures { result ≡ no_limits (matter_by about.now) }
{
    let heading = heading.as_ref()?;
    let day = heading.from;
    let is_set = about.register.table().limits_on(day).is_some();
    refused_unless(
        heading.kind != Kind::MI || is_set,
        Refusal::NoLimits { day },
    )
}

/// Refused if the record to be corrected or withdrawn doesn't count.
pub fn not_live(about: &Matter) -> Option<Refusal>
    ensures { result ≡ not_live (matter_by about.now) }
{
    let target = about.target?;
    let register = about.register;
    let is_live = register
        .history()
        .live(about.household(), target, register.count());
    refused_unless(is_live, Refusal::NotLive { target })
}

/// Refused if the record may not begin on its first day.
pub fn wrong_day(about: &Matter, made: &Option<Record>) -> Option<Refusal>
    requires in_time { IsInTime (matter_by about.now) }
    requires made { made.now ≡ record_in (matter_by about.now) }
    ensures { result ≡ wrong_day (matter_by about.now) }
{
    let from = about.from?;
    match right_of(about, made) {
        Rightful::Any => None,
        Rightful::Only(right) => refused_unless(right == Some(from), Refusal::WrongDay { right }),
    }
}

fn right_of(about: &Matter, made: &Option<Record>) -> Rightful
    requires in_time { IsInTime (matter_by about.now) }
    requires made { made.now ≡ record_in (matter_by about.now) }
    ensures { result ≡ right_of (matter_by about.now) about.now.target }
{
    match about.target {
        None => own_right(about, made),
        Some(number) => right_over(about, number, made),
    }
}

/// Of a record of its own kind.
fn own_right(about: &Matter, made: &Option<Record>) -> Rightful
    requires in_time { IsInTime (matter_by about.now) }
    requires made { made.now ≡ record_in (matter_by about.now) }
    ensures { result ≡ own_right (matter_by about.now) about.now.kind about.now.told }
{
    let history = about.register.history();
    let household = about.household();
    match (about.kind, about.told) {
        (Some(Kind::AR), _) => Rightful::Only(annual_right(history, household)),
        (Some(Kind::GR), _) => {
            Rightful::Only(gross_day(history, about.register.table(), household))
        }
        (Some(Kind::IR), Some(dates)) => told_right(about, dates, made),
        (Some(Kind::IC), Some(dates)) => Rightful::Only(Some(resume_right(dates.done))),
        _ => Rightful::Any,
    }
}

/// Of an interim, by the payment that it would come to.
fn told_right(about: &Matter, dates: Dates, made: &Option<Record>) -> Rightful
    requires made { made.now ≡ record_in (matter_by about.now) }
    requires dates { AreBy last_office_day dates }
    ensures { result ≡ by_payment (matter_by about.now) (interim_right (live_records (own (matter_by about.now))) dates) }
{
    match (made, about.register.plan()) {
        (Some(made), Some(plan)) => {
            let history = about.register.history();
            interim_right(
                history,
                about.household(),
                dates,
                made.ttp,
                plan.report_days,
            )
        }
        _ => Rightful::Any,
    }
}

/// Of a correction, by the payment that it would come to.
fn right_over(about: &Matter, number: u32, made: &Option<Record>) -> Rightful
    requires made { made.now ≡ record_in (matter_by about.now) }
    ensures { result ≡ option_map_or (λ target. by_payment (matter_by about.now) (corrected_right (own (matter_by about.now)) target)) (record_at (own (matter_by about.now)) number) rightful.Any }
{
    match (target_in(about, number), made, about.register.plan()) {
        (Some(target), Some(made), Some(plan)) => {
            let history = about.register.history();
            corrected_right(
                history,
                about.household(),
                target,
                made.ttp,
                plan.report_days,
            )
        }
        _ => Rightful::Any,
    }
}
