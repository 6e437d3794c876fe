//! Annual income.

ghost use Rattle.std.specs.Prelude.{◌≡◌, ◌≤◌};
ghost use Rattle.facts_core.specs.Rules.{broken_rule};
ghost use Rattle.income_rules.specs.Annual.{annual_income_of};

use crate::Annual;
use crate::assets::asset_income;
use crate::earned::earned;
use crate::unearned::unearned;
use days_core::Day;
use facts_core::Facts;

/// The annual income of a family on a day (24 CFR 5.609).
///
/// `passbook` is the passbook savings rate in hundredths of a percent.
pub fn annual_income(facts: &Facts, day: Day, passbook: u32) -> Annual
    requires kept { broken_rule facts.now day ≡ None }
    requires rate { passbook ≤ 10000 }
    ensures value { result ≡ annual_income_of facts.now day passbook }
    ensures within { result.total ≤ 1300000000 }
{
    let earned = earned(facts, day);
    let unearned = unearned(facts, day);
    let asset = asset_income(facts, day, passbook);
    Annual {
        earned,
        unearned,
        asset,
        total: earned + unearned + asset,
    }
}
