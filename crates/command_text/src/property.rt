//! Acts on the property, read.

ghost use Rattle.std.specs.Prelude.{◌≡◌, true, IfOk};
ghost use Rattle.serde_json.specs.View.{view};
ghost use Rattle.json_form.specs.Gives.{Gives};
ghost use Rattle.book_rows.specs.Fit.{is_fit};
ghost use Rattle.command_forms.specs.Property.{plan_at, unit_at, rents_at, limits_act_at};

use crate::forms::{MonthWithin, Name, Persons};
use book_rows::{Command, LimitsAct, RentsAct, UnitAct};
use days_core::{FIRST_OFFICE_MONTH, LAST_OFFICE_MONTH, Rents};
use json_form::{ArrayOf, ArrayUpTo, FormFault, Within, field, field_by, number_field};
use rent_table::Plan;
use serde_json::Value;
use std::alloc::Global;

#[tactic(auto, unfolding(command_forms::specs::Property::plan_at))]
pub fn plan_of(alloc: Global, value: &Value) -> Result<Command, FormFault>
    ensures exact { Gives (λ asked. asked) result (plan_at (view value.now)) }
    ensures fit { IfOk result (λ asked. is_fit asked ≡ true) }
{
    let years = MonthWithin {
        least: FIRST_OFFICE_MONTH,
        most: LAST_OFFICE_MONTH,
    };
    let first = field_by(alloc, value, "first", &years)?;
    let early = field(alloc, value, "early")?;
    let method = number_field(alloc, value, "method", 1, 2)?;
    let fiscal_month = number_field(alloc, value, "fiscal_month", 1, 12)?;
    let report_days = number_field(alloc, value, "report_days", 0, 365)?;
    let passbook = number_field(alloc, value, "passbook", 0, 10_000)?;
    let expected = number_field(alloc, value, "expected", 0, 9_999)?;
    let bounds = field_by(alloc, value, "bounds", &ArrayOf { each: Persons })?;
    let ranks = ArrayUpTo {
        longest: 16,
        each: Within { least: 1, most: 99 },
    };
    let ranks = field_by(alloc, value, "ranks", &ranks)?;
    Ok(Command::Plan(Plan {
        first,
        early,
        method,
        fiscal_month,
        report_days,
        passbook,
        expected,
        bounds,
        ranks,
    }))
}

#[tactic(auto, unfolding(command_forms::specs::Property::unit_at))]
pub fn unit_of(alloc: Global, value: &Value) -> Result<Command, FormFault>
    ensures exact { Gives (λ asked. asked) result (unit_at (view value.now)) }
    ensures fit { IfOk result (λ asked. is_fit asked ≡ true) }
{
    let name = field_by(alloc, value, "name", &Name { most: 10 })?;
    let group = number_field(alloc, value, "group", 1, 99)?;
    let bedrooms = number_field(alloc, value, "bedrooms", 0, 5)?;
    let accessible = field(alloc, value, "accessible")?;
    Ok(Command::Unit(UnitAct {
        name,
        group,
        bedrooms,
        accessible,
    }))
}

#[tactic(auto, unfolding(command_forms::specs::Property::rents_at))]
pub fn rents_of(alloc: Global, value: &Value) -> Result<Command, FormFault>
    ensures exact { Gives (λ asked. asked) result (rents_at (view value.now)) }
    ensures fit { IfOk result (λ asked. is_fit asked ≡ true) }
{
    let group = number_field(alloc, value, "group", 1, 99)?;
    let from = field(alloc, value, "from")?;
    let contract_rent = number_field(alloc, value, "contract_rent", 0, 99_999)?;
    let utility = number_field(alloc, value, "utility", 0, 9_999)?;
    let rents = Rents {
        contract_rent,
        utility,
    };
    Ok(Command::Rents(RentsAct { group, from, rents }))
}

#[tactic(auto, unfolding(command_forms::specs::Property::limits_act_at))]
pub fn limits_of(alloc: Global, value: &Value) -> Result<Command, FormFault>
    ensures exact { Gives (λ asked. asked) result (limits_act_at (view value.now)) }
    ensures fit { IfOk result (λ asked. is_fit asked ≡ true) }
{
    let limits = ArrayOf {
        each: Within {
            least: 0,
            most: 9_999_999,
        },
    };
    let from = field(alloc, value, "from")?;
    let low = field_by(alloc, value, "low", &limits)?;
    let very_low = field_by(alloc, value, "very_low", &limits)?;
    let extremely_low = field_by(alloc, value, "extremely_low", &limits)?;
    Ok(Command::Limits(LimitsAct {
        from,
        low,
        very_low,
        extremely_low,
    }))
}
