//! Who moves into which unit by an act.

ghost use Rattle.std.specs.Prelude.{◌≡◌, ◌≤◌, IfSome};
ghost use Rattle.std.specs.Option.{option_map};
ghost use Rattle.admission_order.specs.Below.office_step.Against.{moving_of};
ghost use Rattle.office_acts.specs.Moves.{moving_by};
ghost use Rattle.office_acts.specs.Matter.{matter_by};

use crate::matter::Matter;
use admission_order::office_step::MoveIn;
use admission_order::unit_in;
use days_core::{Day, Month};
use record_history::{Dates, Record};
use rent_table::{Plan, Unit};
use wait_list::Candidate;

/// A move, with the plan and the unit.
#[derive(Clone, Copy)]
pub struct Moving<'a> {
    pub plan: &'a Plan,
    pub unit: &'a Unit,
    pub candidate: Candidate,
    pub from: Day,
}

pub fn moving_of<'a>(about: &Matter<'a>) -> Option<Moving<'a>>
    ensures value { option_map moving_by result ≡ moving_of (matter_by about.now) }
    ensures bedrooms { IfSome result (λ moving. moving.unit.now.bedrooms ≤ 5) }
{
    let plan = about.register.plan()?;
    let moves = about.moves?;
    let unit = unit_in(about.register, moves.unit)?;
    Some(Moving {
        plan,
        unit,
        candidate: moves.candidate,
        from: moves.from,
    })
}
