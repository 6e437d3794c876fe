//! Whether the record of an act, or a unit's name, finds its place among those that are there.

ghost use Rattle.std.specs.Prelude.{◌≡◌, ◌≤◌, option_and_then, IfSome};
ghost use Rattle.admission_order.specs.Below.office_step.Made.{record_in};
ghost use Rattle.admission_order.specs.Below.office_step.Against.{disorder, name_taken, size_misfit, may_collide, unit_taken};
ghost use Rattle.office_acts.specs.Judged.{IsMade};
ghost use Rattle.office_acts.specs.Matter.{matter_by};

use crate::matter::Matter;
use crate::moves::moving_of;
use crate::refusing::refused_unless;
use admission_order::office_refusals::change_by;
use admission_order::office_step::Refusal;
use days_core::{Day, Month};
use record_history::{Dates, Record};
use rent_table::suits;
use tenancy_rules::order_fault;
use wait_list::Candidate;

/// Refused if a record of the household would be out of order once this one is there.
pub fn disorder(about: &Matter, made: &Option<Record>) -> Option<Refusal>
    requires value { made.now ≡ record_in (matter_by about.now) }
    requires made { IfSome made.now (IsMade about.now.register.now.known) }
    ensures { result ≡ disorder (matter_by about.now) }
{
    let _household = about.household?;
    let made = made.as_ref()?;
    let target = order_fault(about.register.history(), made.household, &change_by(made))?;
    Some(Refusal::Disorder { target })
}

/// Refused if a unit has the name.
pub fn name_taken(about: &Matter) -> Option<Refusal>
    ensures { result ≡ name_taken (matter_by about.now) }
{
    let unit = about.register.table().unit_named(about.name?)?;
    Some(Refusal::NameTaken { unit })
}

/// Refused if the unit that is moved into isn't for so many persons.
pub fn size_misfit(about: &Matter, made: &Option<Record>) -> Option<Refusal>
    requires { made.now ≡ record_in (matter_by about.now) }
    ensures { result ≡ size_misfit (matter_by about.now) }
{
    let Some(moving) = moving_of(about) else {
        return None;
    };
    let made = made.as_ref()?;
    refused_unless(
        suits(moving.plan, moving.unit, made.persons),
        Refusal::SizeMisfit {
            unit: moving.unit.number,
            size: made.persons,
        },
    )
}

/// Refused if another household would have the unit on a day, once the record is there.
pub fn unit_taken(about: &Matter, made: &Option<Record>) -> Option<Refusal>
    requires value { made.now ≡ record_in (matter_by about.now) }
    requires made { IfSome made.now (IsMade about.now.register.now.known) }
    ensures { result ≡ unit_taken (matter_by about.now) }
{
    if !may_collide(about) {
        return None;
    }
    let made = made.as_ref()?;
    let tenancies = about.register.tenancies();
    let found = tenancies.double_use(made.household, &change_by(made))?;
    Some(Refusal::UnitTaken {
        household: found.household,
        day: found.day,
    })
}

fn may_collide(about: &Matter) -> bool
    ensures { result ≡ may_collide (matter_by about.now) }
{
    about.unit.is_some() || (about.target.is_some() || about.begins)
}
