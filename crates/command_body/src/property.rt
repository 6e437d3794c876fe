//! Acts on the property, as members.

ghost use Rattle.std.specs.Prelude.{◌≡◌, IfOk};
ghost use Rattle.serde_json.specs.View.{members_view};
ghost use Rattle.command_forms.specs.Fields.{bound_data};
ghost use Rattle.command_forms.specs.Property.{plan_members, unit_members, rents_members, limits_members};

use book_rows::{LimitsAct, RentsAct, UnitAct};
use json_form::{Exact, Members, Writer, Written, array_by};
use plain_data::NoMemory;
use rent_table::{Bound, Plan};
use std::alloc::Global;

#[tactic(auto, unfolding(command_forms::specs::Property::plan_members))]
pub fn plan_members(alloc: Global, plan: &Plan) -> Result<Members, NoMemory>
    ensures { IfOk result (λ all. members_view all.members.entries ≡ plan_members plan.now) }
{
    Members::new(alloc)
        .with_value("bounds", array_by(alloc, &plan.bounds, &Persons)?)?
        .with("early", &plan.early)?
        .with("expected", &plan.expected)?
        .with("first", &plan.first)?
        .with("fiscal_month", &plan.fiscal_month)?
        .with("method", &plan.method)?
        .with("passbook", &plan.passbook)?
        .with("ranks", &plan.ranks)?
        .with("report_days", &plan.report_days)
}

/// How many persons a unit is for.
#[derive(Drop)]
struct Persons;

impl Writer for Persons {
    type Row = Bound;

    ghost written = { λ _. bound_data };

    fn write(&self, alloc: Global, bound: &Bound) -> Result<Exact, NoMemory> {
        [bound.least, bound.most].to_value(alloc)
    }
}

#[tactic(auto, unfolding(command_forms::specs::Property::unit_members))]
pub fn unit_members(alloc: Global, unit: &UnitAct) -> Result<Members, NoMemory>
    ensures { IfOk result (λ all. members_view all.members.entries ≡ unit_members unit.now) }
{
    Members::new(alloc)
        .with("accessible", &unit.accessible)?
        .with("bedrooms", &unit.bedrooms)?
        .with("group", &unit.group)?
        .with("name", &unit.name)
}

#[tactic(auto, unfolding(command_forms::specs::Property::rents_members))]
pub fn rents_members(alloc: Global, rents: &RentsAct) -> Result<Members, NoMemory>
    ensures { IfOk result (λ all. members_view all.members.entries ≡ rents_members rents.now) }
{
    Members::new(alloc)
        .with("contract_rent", &rents.rents.contract_rent)?
        .with("from", &rents.from)?
        .with("group", &rents.group)?
        .with("utility", &rents.rents.utility)
}

#[tactic(auto, unfolding(command_forms::specs::Property::limits_members))]
pub fn limits_members(alloc: Global, limits: &LimitsAct) -> Result<Members, NoMemory>
    ensures { IfOk result (λ all. members_view all.members.entries ≡ limits_members limits.now) }
{
    Members::new(alloc)
        .with("extremely_low", &limits.extremely_low)?
        .with("from", &limits.from)?
        .with("low", &limits.low)?
        .with("very_low", &limits.very_low)
}
