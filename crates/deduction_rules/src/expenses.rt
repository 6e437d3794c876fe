//! Deductions for disability assistance and medical expenses.

ghost use Rattle.std.specs.Prelude.{◌≡◌, ◌+◌, ◌^◌, ◌<◌};
ghost use Rattle.facts_core.specs.Rules.{broken_rule};
ghost use Rattle.deduction_rules.specs.Deductions.{three_percent_of, medical_beyond, disability_deduction_of};

use crate::earners::earned_by_helped;
use days_core::{Day, round_half_up};
use facts_core::Facts;

/// Three percent of the annual income. Own rule: half a dollar is rounded up.
pub fn three_percent(annual: u32) -> u32
    ensures { result ≡ three_percent_of annual }
{
    round_half_up(3 * u64::from(annual), 100) as u32
}

/// What is deducted for disability assistance (24 CFR 5.611(a)(3)).
pub fn disability_deduction(facts: &Facts, annual: u32, day: Day) -> u32
    requires { broken_rule facts.now day ≡ None }
    ensures { result ≡ disability_deduction_of facts.now annual day }
{
    let threshold = three_percent(annual);
    if facts.disability > threshold {
        (facts.disability - threshold).min(earned_by_helped(facts, day))
    } else {
        0
    }
}

/// The medical expenses, or where the disability assistance has not passed the threshold, what both are above it.
pub fn medical_beyond(threshold: u32, disability: u32, medical: u32) -> u32
    requires { disability + medical < 2 ^ 32 }
    ensures { result ≡ medical_beyond threshold disability medical }
{
    if disability > threshold {
        medical
    } else {
        (disability + medical).saturating_sub(threshold)
    }
}
