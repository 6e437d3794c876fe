//! Facts as values, and back.

ghost use Rattle.std.specs.Prelude.{◌≡◌, Ok, IfOk, false};
ghost use Rattle.serde_json.specs.View.{view};
ghost use Rattle.serde_json.specs.Written.{has_float};
ghost use Rattle.json_form.specs.Gives.{Gives};
ghost use Rattle.facts_core.specs.declared.facts.Facts.{Facts};
ghost use Rattle.facts_core.specs.Facts.{facts_at, facts_data, FactsFit};

use crate::facts::Facts;
use json_form::{FormFault, Formed, Written};
use plain_data::NoMemory;
use serde_json::Value;
use std::alloc::Global;

/// Reads the facts of a value. The fault is that of every form: `BadField` with the path of the first place that
/// doesn't fit, seen from the value, so that a form around the facts can put its own name before it. It is for callers
/// outside: a command's form reads its facts as one of its fields.
pub fn facts_of_value(alloc: Global, value: &Value) -> Result<Facts, FormFault>
    ensures { Gives (λ facts. facts) result (facts_at (view value.now)) }
{
    Facts::of_value(alloc, value)
}

/// Writes the facts as a value.
pub fn value_of_facts(alloc: Global, facts: &Facts) -> Result<Value, NoMemory>
    ensures value { IfOk result (λ value. view value ≡ facts_data facts.now) }
    // So that its text is exact.
    ensures no_float { IfOk result (λ value. has_float (view value) ≡ false) }
{
    Ok(facts.to_value(alloc)?.into_value())
}

/// All facts that a program can hold are read again from the value that is written of them.
pub fn facts_read_back()
    ensures { (facts : Facts) → FactsFit facts → facts_at (facts_data facts) ≡ Ok facts }
{}
