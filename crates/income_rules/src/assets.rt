//! Assets and the income from them.

ghost use Rattle.std.specs.Prelude.{◌≡◌, ◌+◌, ◌-◌, ◌^◌, ◌<◌, ◌≤◌, sum_by, filter};
ghost use Rattle.facts_core.specs.Rules.{broken_rule};
ghost use Rattle.income_rules.specs.Assets.{window_start, is_between, given_away_of, counted_given_away, net_assets_of, actual_asset_income_of, imputed_asset_income, greater_asset_income, asset_income_of};

use days_core::{Day, round_half_up, years_before};
use facts_core::{Asset, Disposal, Facts};

/// The net family assets on a day, in whole dollars (24 CFR 5.603(b)).
pub fn net_assets(facts: &Facts, day: Day) -> u32
    requires { broken_rule facts.now day ≡ None }
    ensures { result ≡ net_assets_of facts.now day }
{
    let values = values_of_assets(facts.assets.as_slice());
    let difference = given_away(facts.disposals.as_slice(), day);
    values + counted_given_away(difference)
}

fn counted_given_away(difference: u32) -> u32
    ensures { result ≡ counted_given_away difference }
{
    if difference > 1_000 { difference } else { 0 }
}

/// The income from assets in a year, actual or imputed (24 CFR 5.609(b)(3)).
pub fn asset_income(facts: &Facts, day: Day, passbook: u32) -> u32
    requires kept { broken_rule facts.now day ≡ None }
    requires rate { passbook ≤ 10000 }
    ensures { result ≡ asset_income_of facts.now day passbook }
{
    let actual = incomes_of_assets(facts.assets.as_slice());
    let net = net_assets(facts, day);
    if net > 5_000 {
        actual.max(imputed(net, passbook))
    } else {
        actual
    }
}

fn imputed(net: u32, passbook: u32) -> u32
    requires { passbook ≤ 10000 }
    ensures { result ≡ imputed_asset_income net passbook }
{
    round_half_up(u64::from(net) * u64::from(passbook), 10_000) as u32
}

fn values_of_assets(assets: &[Asset]) -> u32
    requires { sum_by (λ asset. asset.value) assets.now < 2 ^ 32 }
    ensures { result ≡ sum_by (λ asset. asset.value) assets.now }
{
    assets.iter().map(|asset| asset.value).sum()
}

fn incomes_of_assets(assets: &[Asset]) -> u32
    requires { sum_by (λ asset. asset.income) assets.now < 2 ^ 32 }
    ensures { result ≡ sum_by (λ asset. asset.income) assets.now }
{
    assets.iter().map(|asset| asset.income).sum()
}

fn given_away(disposals: &[Disposal], day: Day) -> u32
    requires values { sum_by (λ disposal. disposal.value) disposals.now < 2 ^ 32 }
    requires received { sum_by (λ disposal. disposal.received) disposals.now < 2 ^ 32 }
    ensures { result ≡ given_away_of disposals.now day }
{
    let start = window_start(day);
    values_within(disposals, start, day).saturating_sub(received_within(disposals, start, day))
}

fn window_start(day: Day) -> u32
    ensures { result ≡ window_start day }
{
    match years_before(day, 2) {
        Some(start) => start.number(),
        None => 0,
    }
}

fn values_within(disposals: &[Disposal], start: u32, day: Day) -> u32
    requires { sum_by (λ disposal. disposal.value) (filter (is_between start day) disposals.now) < 2 ^ 32 }
    ensures { result ≡ sum_by (λ disposal. disposal.value) (filter (is_between start day) disposals.now) }
{
    disposals
        .iter()
        .filter(|disposal| is_between(disposal, start, day))
        .map(|disposal| disposal.value)
        .sum()
}

fn received_within(disposals: &[Disposal], start: u32, day: Day) -> u32
    requires { sum_by (λ disposal. disposal.received) (filter (is_between start day) disposals.now) < 2 ^ 32 }
    ensures { result ≡ sum_by (λ disposal. disposal.received) (filter (is_between start day) disposals.now) }
{
    disposals
        .iter()
        .filter(|disposal| is_between(disposal, start, day))
        .map(|disposal| disposal.received)
        .sum()
}

fn is_between(disposal: &Disposal, start: u32, day: Day) -> bool
    ensures { result ≡ is_between start day disposal.now }
{
    start <= disposal.day.number() && disposal.day <= day
}
