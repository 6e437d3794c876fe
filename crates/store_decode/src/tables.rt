//! All rows at once, or the first one that stands for none of the book.

ghost use Rattle.std.specs.Prelude.{◌≡◌};
ghost use Rattle.store_decode.specs.Read.{Narrows, IsUnfit, unfit_row, named as name_of};

use crate::ReadRows;
use book_rows::{ActRow, Table, Tables};
use keeper_core::Loaded;
use record_history::Record;
use sqlite::Row;
use store_sql::{StoredRow, number_at};
use voucher_core::Line;

/// The act by which a row is named, which is its first cell, and 0 where that is no number of an act.
#[tactic(auto, unfolding(store_sql::specs::Cells::is_number))]
fn named(row: &Row) -> u32
    ensures { result ≡ name_of row.now }
{
    if row.column_count() == 0 {
        return 0;
    }
    match number_at(row, 0) {
        Some(act) => act,
        None => 0,
    }
}

/// What a load answers that came to a row which doesn't fit: the row is bad, or a cell of it isn't even of its column's type.
fn unfit<T: StoredRow>(table: Table, row: &Row) -> Loaded
    ensures { IsUnfit (unfit_row T.table table row.now) result }
{
    if !T::is_typed(row) {
        return Loaded::Failed;
    }
    Loaded::BadRow {
        table,
        act: named(row),
    }
}

/// The rows that these stand for, if each fits its table; else the first row that doesn't, in the order of acts, records,
/// lines. `Failed` if that has a cell of another type than its column's.
pub fn narrowed(acts: ReadRows<ActRow>, records: ReadRows<Record>, lines: ReadRows<Line>) -> Loaded
    ensures { Narrows acts records lines result }
{
    let acts = match acts.finish() {
        Ok(acts) => acts,
        Err(row) => return unfit::<ActRow>(Table::Acts, &row),
    };
    let records = match records.finish() {
        Ok(records) => records,
        Err(row) => return unfit::<Record>(Table::Records, &row),
    };
    match lines.finish() {
        Ok(lines) => Loaded::Rows(Tables {
            acts,
            records,
            lines,
        }),
        Err(row) => unfit::<Line>(Table::Lines, &row),
    }
}
