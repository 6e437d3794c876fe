//! The row that stands on a day.

ghost use Rattle.std.specs.Prelude.{◌≡◌};
ghost use Rattle.std.specs.Option.{option_copied};
ghost use Rattle.row_choice.specs.Latest.{comes_before, later, latest};
ghost use Rattle.rent_table.specs.Table.{rents_before, limits_before, rent_row_on, limits_on};

use crate::{LimitRow, RentRow};
use days_core::Day;

/// Whether the first of two rows, each by its first day and its act, comes before the other.
fn comes_before(from: Day, act: u32, other_from: Day, other_act: u32) -> bool
    ensures { result ≡ comes_before from act other_from other_act }
{
    from < other_from || from == other_from && act < other_act
}

fn later_rents<'a>(best: Option<&'a RentRow>, row: &'a RentRow) -> &'a RentRow
    ensures { Some result.now ≡ later rents_before (option_copied best.entry) row.now }
{
    match best {
        Some(best) if !comes_before(best.from, best.act, row.from, row.act) => best,
        _ => row,
    }
}

fn later_limits<'a>(best: Option<&'a LimitRow>, row: &'a LimitRow) -> &'a LimitRow
    ensures { Some result.now ≡ later limits_before (option_copied best.entry) row.now }
{
    match best {
        Some(best) if !comes_before(best.from, best.act, row.from, row.act) => best,
        _ => row,
    }
}

/// The row that sets the rents of a group on a day.
pub fn rent_row_on(rows: &[RentRow], group: u32, day: Day) -> Option<&RentRow>
    ensures { option_copied result ≡ rent_row_on rows.now group day }
{
    let mut best = None;
    for row in rows {
        if row.group == group && row.from <= day {
            best = Some(later_rents(best, row));
        }
    }
    best
}

/// The row that sets the income limits on a day.
pub fn limit_row_on(rows: &[LimitRow], day: Day) -> Option<&LimitRow>
    ensures { option_copied result ≡ limits_on rows.now day }
{
    let mut best = None;
    for row in rows {
        if row.from <= day {
            best = Some(later_limits(best, row));
        }
    }
    best
}
