//! The payment, and how it splits the rents.

ghost use Rattle.std.specs.Prelude.{◌≡◌, ◌+◌, ◌*◌, ◌≤◌};
ghost use Rattle.days_core.specs.Rounding.{round_half_up};
ghost use Rattle.payment_rules.specs.Payment.{share_of_adjusted, share_of_annual, payment_of, split_of};

use crate::Payment;
use days_core::{Rents, round_half_up};

/// The payment of a family with these incomes for the year, in a unit with these rents.
///
/// `welfare` is the welfare rent of the month and `exempt` frees from the minimum rent. Of the family's `size` members so
/// many are `eligible`. Sources: 24 CFR 5.520, 5.628 to 5.634; of what the office claims, 24 CFR part 880 in outline.
pub fn payment(
    annual: u32,
    adjusted: u32,
    welfare: u32,
    exempt: bool,
    rents: Rents,
    eligible: u32,
    size: u32,
) -> Payment
    requires rent { rents.contract_rent ≤ 99999 }
    requires utility { rents.utility ≤ 9999 }
    requires some { 1 ≤ eligible }
    requires among { eligible ≤ size }
    requires few { size ≤ 12 }
    ensures value { result ≡ payment_of annual adjusted welfare exempt rents eligible size }
    ensures balanced { result.tenant_rent + result.assistance ≡ rents.contract_rent + result.reimbursement }
    ensures within { result.assistance ≤ rents.contract_rent + rents.utility }
{
    let minimum = if exempt { 0 } else { 25 };
    let ttp = adjusted_share(adjusted)
        .max(annual_share(annual))
        .max(welfare.max(minimum));
    rent_split(ttp, rents, eligible, size)
}

fn adjusted_share(adjusted: u32) -> u32
    ensures { result ≡ share_of_adjusted adjusted }
{
    // 12 months over 0.30 are 40.
    round_half_up(adjusted.into(), 40) as u32
}

fn annual_share(annual: u32) -> u32
    ensures { result ≡ share_of_annual annual }
{
    // 12 months over 0.10 are 120.
    round_half_up(annual.into(), 120) as u32
}

/// How a total tenant payment splits the rents of a unit. Of the family's `size` members so many are `eligible`.
pub fn rent_split(ttp: u32, rents: Rents, eligible: u32, size: u32) -> Payment
    requires rent { rents.contract_rent ≤ 99999 }
    requires utility { rents.utility ≤ 9999 }
    requires some { 1 ≤ eligible }
    requires among { eligible ≤ size }
    requires few { size ≤ 12 }
    ensures value { result ≡ split_of ttp rents eligible size }
    // The owner has the contract rent from the family and the office; what the office claims beyond goes back to the family.
    ensures balanced { result.tenant_rent + result.assistance ≡ rents.contract_rent + result.reimbursement }
    ensures within { result.assistance ≤ rents.contract_rent + rents.utility }
{
    let gross = rents.contract_rent + rents.utility;
    let assistance = part(gross - ttp.min(gross), eligible, size);
    let share = gross - assistance;
    Payment {
        ttp,
        tenant_rent: share.saturating_sub(rents.utility),
        reimbursement: rents.utility.saturating_sub(share),
        assistance,
    }
}

/// The part of an amount that goes by the eligible members.
fn part(amount: u32, eligible: u32, size: u32) -> u32
    requires amount { amount ≤ 109998 }
    requires some { 1 ≤ eligible }
    requires among { eligible ≤ size }
    requires few { size ≤ 12 }
    ensures value { result ≡ round_half_up (amount * eligible) size }
    ensures within { result ≤ amount }
{
    round_half_up((amount * eligible).into(), size.into()) as u32
}
