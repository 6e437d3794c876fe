//! The sample's plan, unit, rents and limits.

ghost use Rattle.std.specs.Prelude.{◌≡◌, ◌≤◌, IfOk};

use crate::days::{day, month};
use crate::rows::text;
use days_core::{Day, Rents};
use plain_data::{Listed, NoMemory};
use rent_table::{Bound, LimitRow, Plan, RentRow, RentTable, Unit};
use std::alloc::Global;

/// A contract rent, beside a utility allowance of 60.
pub fn rents(contract_rent: u32) -> Rents {
    Rents {
        contract_rent,
        utility: 60,
    }
}

/// Rents of a group from a day on, as that act set them, with a utility allowance of 60.
pub fn rent_row(group: u32, from: Day, act: u32, contract_rent: u32) -> RentRow
    ensures { result.act ≡ act }
{
    RentRow {
        group,
        from,
        act,
        rents: rents(contract_rent),
    }
}

/// Limits of 48,000, 30,000 and 18,000 for families of every size from a day on, as that act set them.
pub fn limit_row(from: Day, act: u32) -> LimitRow
    ensures { result.act ≡ act }
{
    LimitRow {
        from,
        act,
        low: [48_000; 12],
        very_low: [30_000; 12],
        extremely_low: [18_000; 12],
    }
}

/// A unit of group 1 with one bedroom, which isn't accessible.
pub fn unit(alloc: Global, number: u32, name: &str) -> Result<Unit, NoMemory>
    ensures number { IfOk result (λ unit. unit.number ≡ number) }
    ensures name { IfOk result (λ unit. unit.name ≡ name.now) }
    ensures bedrooms { IfOk result (λ unit. unit.bedrooms ≤ 5) }
{
    Ok(Unit {
        number,
        name: text(alloc, name)?,
        group: 1,
        bedrooms: 1,
        accessible: false,
    })
}

/// The plan of an office from January 2024 on, which prefers by these ranks: a contract of after 1981, the first method, a
/// fiscal year from January, 30 days to report, a passbook rate of 2 percent, and 10 admissions a year. A unit of one
/// bedroom is for one or two persons.
pub fn plan(alloc: Global, ranks: &[u32]) -> Result<Plan, NoMemory> {
    let bounds = [(1, 1), (1, 2), (2, 4), (3, 6), (4, 8), (5, 10)];
    Ok(Plan {
        first: month("2024-01"),
        early: false,
        method: 1,
        fiscal_month: 1,
        report_days: 30,
        passbook: 200,
        expected: 10,
        bounds: bounds.map(|(least, most)| Bound { least, most }),
        ranks: Listed::new(ranks.to_vec(alloc)?),
    })
}

/// Unit 1, A-101 of group 1, and these rents, each of a later act than those before it.
pub fn rent_table(alloc: Global, rows: &[RentRow]) -> Option<RentTable> {
    let mut table = RentTable::new(alloc).ok()?;
    table.reserve().ok()?;
    table.push_unit(unit(alloc, 1, "A-101").ok()?);
    for row in rows {
        if !add_rents(&mut table, *row) {
            return None;
        }
    }
    Some(table)
}

fn add_rents(table: &mut RentTable, row: RentRow) -> bool {
    if table.reserve().is_err() {
        return false;
    }
    if !table
        .rent_rows()
        .iter()
        .all(|earlier| earlier.act < row.act)
    {
        return false;
    }
    table.push_rents(row);
    true
}
