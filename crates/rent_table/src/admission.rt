//! Which units suit, and who may be admitted by income.

ghost use Rattle.std.specs.Prelude.{◌≡◌, ◌≤◌};
ghost use Rattle.rent_table.specs.Admission.{suits, admission_limit, has_extremely_low_income};

use crate::{LimitRow, Plan, Unit};

/// Whether a unit is for so many persons, by the plan's bounds for its bedrooms.
pub fn suits(plan: &Plan, unit: &Unit, persons: u32) -> bool
    requires { unit.now.bedrooms ≤ 5 }
    ensures { result ≡ suits plan.now unit.now persons }
{
    let bound = plan.bounds[unit.bedrooms as usize];
    bound.least <= persons && persons <= bound.most
}

/// The greatest annual income with which a family of that size may be admitted, in whole dollars (24 CFR 5.653).
pub fn admission_limit(plan: &Plan, limits: &LimitRow, size: u32) -> u32
    requires least { 1 ≤ size }
    requires most { size ≤ 12 }
    ensures { result ≡ admission_limit plan.now limits.now size }
{
    let place = size as usize - 1;
    if plan.early {
        limits.low[place]
    } else {
        limits.very_low[place]
    }
}

/// Whether a family of that size has an extremely low annual income (24 CFR 5.603(b)).
pub fn has_extremely_low_income(limits: &LimitRow, size: u32, annual: u32) -> bool
    requires least { 1 ≤ size }
    requires most { size ≤ 12 }
    ensures { result ≡ has_extremely_low_income limits.now size annual }
{
    annual <= limits.extremely_low[size as usize - 1]
}
