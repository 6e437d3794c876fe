//! The record that an act makes, by what the register knows.

ghost use Rattle.std.specs.Prelude.{◌≡◌, ◌≤◌, ◌+◌, None, false, sum_by, length, option_copied, IfSome};
ghost use Rattle.days_core.specs.OfficeDays.{last_office_day};
ghost use Rattle.facts_core.specs.Rules.{broken_rule};
ghost use Rattle.record_history.specs.Records.{newest_number};
ghost use Rattle.record_history.specs.Held.{records_of};
ghost use Rattle.certified_figures.specs.Figures.{FitsRecord};
ghost use Rattle.admission_order.specs.Below.office_step.Households.{continued, AreBy};
ghost use Rattle.admission_order.specs.Below.office_step.Made.{heading_in, record_in, rents_in_unit, made_with, made_of_facts, made_of_carried, made_of_nothing};
ghost use Rattle.admission_order.specs.Below.office_step.Known.{own_in};
ghost use Rattle.office_acts.specs.Judged.{AreWithin, IsMade, IsReady, HasSize, HasSizeBy};
ghost use Rattle.office_acts.specs.Matter.{matter_by};
ghost use Rattle.record_history.specs.Limits.{most_acts};

use crate::matter::Matter;
use admission_order::office_refusals::{
    Basis, continued, entry, rents_in_unit, told_extremely_low,
};
use admission_order::office_register::Register;
use admission_order::office_step::Heading;
use certified_figures::{Figures, figures_carried, figures_of_facts, no_figures};
use days_core::{Day, Rents};
use facts_core::Facts;
use record_history::{Dates, History, Kind, Record};
use rent_table::{LimitRow, Plan, RentTable};

/// The record that comes of it, if one does.
pub fn record_in(about: &Matter, heading: &Option<Heading>) -> Option<Record>
    requires heading { heading.now ≡ heading_in (matter_by about.now) }
    requires ready { IfSome heading.now (IsReady (matter_by about.now).basis) }
    ensures value { result ≡ record_in (matter_by about.now) }
    ensures made { IfSome result (IsMade about.now.register.now.known) }
    ensures size { IfSome result (HasSizeBy (matter_by about.now).basis) }
{
    let heading = heading.as_ref()?;
    match about.basis {
        Basis::Facts(facts) => made_of_facts(about.register, heading, facts),
        Basis::Carried => made_of_carried(about.register, heading),
        Basis::Nothing => Some(made_of_nothing(about.register, heading)),
    }
}

/// The record of a heading that is computed from the facts, where there are a plan and rents.
fn made_of_facts(register: &Register, heading: &Heading, facts: &Facts) -> Option<Record>
    requires kept { broken_rule facts.now heading.now.from ≡ None }
    requires from { heading.now.from ≤ last_office_day }
    requires dates { IfSome heading.now.dates (AreBy last_office_day) }
    ensures value { result ≡ made_of_facts register.now.known heading.now facts.now }
    ensures made { IfSome result (IsMade register.now.known) }
    ensures size { IfSome result HasSize }
{
    let plan = register.plan()?;
    let rents = rents_on(register, heading.unit, heading.from)?;
    let figures = figures_of_facts(facts, heading.from, plan.passbook, rents);
    let limits = register.table().limits_on(heading.from);
    let extremely = told_extremely_low(heading.kind, limits, &figures);
    Some(made_with(register, heading, extremely, &figures))
}

/// The record of a heading that carries over what was certified, where that and rents are there.
fn made_of_carried(register: &Register, heading: &Heading) -> Option<Record>
    requires from { heading.now.from ≤ last_office_day }
    requires dates { IfSome heading.now.dates (AreBy last_office_day) }
    ensures value { result ≡ made_of_carried register.now.known heading.now }
    ensures made { IfSome result (IsMade register.now.known) }
{
    let held = continued(register.history(), heading.household, heading.from)?;
    let rents = rents_on(register, heading.unit, heading.from)?;
    let figures = figures_carried(held, register.eligible_of_record(held), rents);
    Some(made_with(register, heading, false, &figures))
}

/// The record of a heading that certifies nothing.
fn made_of_nothing(register: &Register, heading: &Heading) -> Record
    requires from { heading.now.from ≤ last_office_day }
    requires dates { IfSome heading.now.dates (AreBy last_office_day) }
    ensures value { result ≡ made_of_nothing register.now.known heading.now }
    ensures made { IsMade register.now.known result }
{
    made_with(register, heading, false, &no_figures())
}

/// The next record of the household of a heading.
fn made_with(register: &Register, heading: &Heading, extremely: bool, figures: &Figures) -> Record
    requires from { heading.now.from ≤ last_office_day }
    requires dates { IfSome heading.now.dates (AreBy last_office_day) }
    requires fits { FitsRecord figures.now }
    ensures value { result ≡ made_with register.now.known heading.now extremely figures.now }
    ensures made { IsMade register.now.known result }
{
    let number = next_number(register.history(), heading.household);
    entry(number, register.count() + 1, heading, extremely, figures)
}

/// The number of the household's next record.
fn next_number(history: &History, household: u32) -> u32
    requires { sum_by length history.now.households ≤ most_acts }
    ensures { result ≡ newest_number (records_of history.now.households household) + 1 }
{
    history.newest(household) + 1
}

/// The rents of the unit on the day.
fn rents_on(register: &Register, unit: u32, day: Day) -> Option<Rents>
    ensures value { result ≡ rents_in_unit register.now.known unit day }
    ensures within { IfSome result AreWithin }
{
    rents_in_unit(register.table(), unit, day)
}
