//! How many households a closing pays.

ghost use Rattle.std.specs.Prelude.{◌≡◌, ◌==◌, IfOk, filter, map};
ghost use Rattle.std.specs.BTreeSet.{IsFromIterResult};
ghost use Rattle.std.specs.Ordering.{nat_cmp};
ghost use Rattle.forms_text.specs.Form.{household_count, own_lines};

use days_core::Month;
use office_core::Voucher;
use plain_data::NoMemory;
use std::alloc::Global;
use std::collections::BTreeSet;
use voucher_core::Line;

/// How many households have lines for the month itself.
pub fn count_households(alloc: Global, voucher: &Voucher) -> Result<u64, NoMemory>
    ensures { IfOk result (λ count. count ≡ household_count (own_lines voucher.now)) }
{
    let named = named_in(alloc, voucher.lines.as_slice(), voucher.month)?;
    let households = set_of(alloc, &named)?;
    Ok(households.len() as u64)
}

/// The households of the lines for the month, as often as they have one.
fn named_in(alloc: Global, lines: &[Line], month: Month) -> Result<Vec<u32>, NoMemory>
    ensures { IfOk result (λ named. named.items ≡ map (λ line. line.household) (filter (λ line. line.for_month == month) lines.now)) }
{
    let named = lines
        .iter()
        .filter(|line| line.for_month == month)
        .map(|line| line.household)
        .collect(alloc)?;
    Ok(named)
}

fn set_of(alloc: Global, numbers: &[u32]) -> Result<BTreeSet<u32>, NoMemory>
    ensures { IfOk result (IsFromIterResult nat_cmp numbers.now) }
{
    Ok(numbers.iter().copied().collect(alloc)?)
}
