//! Whether the cells of a row are of the SQL types of their columns.

ghost use Rattle.std.specs.Prelude.{◌≡◌, map};
ghost use Rattle.sqlite.specs.{Order.column};
ghost use Rattle.store_sql.specs.Types.{is_of as is_cell_of, are_of_from, listed_column};

use crate::columns::SqlColumn;
use sqlite::Row;
use sqlite::types::ValueRef;
use sqlite_schema::schema::Kind;

/// Whether a cell is of its column's type, or NULL where the column may be. Where a row has no such cell, it is NULL.
#[tactic(auto, unfolding(crate::specs::Cells::is_words))]
fn is_of(row: &Row, at: usize, wanted: SqlColumn) -> bool
    ensures { result ≡ is_cell_of (listed_column wanted.entry) (column row.now at) }
{
    let (_, kind, not_null) = wanted;
    match row.get_ref(at) {
        Ok(ValueRef::Int(_)) => kind == Kind::Integer,
        Ok(ValueRef::Text(_)) => kind == Kind::Text,
        Ok(ValueRef::Null) => !not_null,
        Err(_) => !not_null,
        _ => false,
    }
}

/// Whether a row has a cell for each column, which is of its type, and no more.
pub(crate) fn are_of(row: &Row, columns: &[SqlColumn]) -> bool
    ensures { result ≡ are_of_from 0 (map listed_column columns.entry.now) row.now }
{
    let mut at = 0usize;
    let mut left = columns;
    while let [column, others @ ..] = left {
        if !is_of(row, at, *column) {
            return false;
        }
        at += 1;
        left = others;
    }
    row.column_count() == at
}
