//! The object that is assessed.

ghost use Rattle.std.specs.Prelude.{◌≤◌, IfOk};
ghost use Rattle.serde_json.specs.View.{view};
ghost use Rattle.json_form.specs.Gives.{Gives};
ghost use Rattle.assess_command.specs.Household.{household_at};

use days_core::{Day, Rents};
use facts_core::Facts;
use json_form::{FormFault, closed, field, number_field, object};
use serde_json::Value;
use std::alloc::Global;

/// A household to assess.
#[derive(Drop)]
pub struct Household {
    /// The day on which the assessment takes effect.
    pub day: Day,
    /// The passbook savings rate, in hundredths of a percent: 0 to 10,000.
    pub passbook: u32,
    pub rents: Rents,
    pub facts: Facts,
}

/// Reads the household of an assess object.
#[tactic(auto, unfolding(crate::specs::Household::household_at))]
pub fn household_of(alloc: Global, value: &Value) -> Result<Household, FormFault>
    ensures exact { Gives (λ household. household) result (household_at (view value.now)) }
    ensures rate { IfOk result (λ household. household.passbook ≤ 10000) }
    ensures rent { IfOk result (λ household. household.rents.contract_rent ≤ 99999) }
    ensures utility { IfOk result (λ household. household.rents.utility ≤ 9999) }
{
    object(alloc, value)?;
    let day = field(alloc, value, "day")?;
    let passbook = number_field(alloc, value, "passbook", 0, 10_000)?;
    let contract_rent = number_field(alloc, value, "contract_rent", 0, 99_999)?;
    let utility = number_field(alloc, value, "utility", 0, 9_999)?;
    let facts = field(alloc, value, "facts")?;
    let rents = Rents {
        contract_rent,
        utility,
    };
    let household = Household {
        day,
        passbook,
        rents,
        facts,
    };
    let names = ["day", "passbook", "contract_rent", "utility", "facts"];
    closed(alloc, value, &names, household)
}
