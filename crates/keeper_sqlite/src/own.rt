//! Whether a schema has the tables that the statements on a book's file make, and nothing that touches them.

ghost use Rattle.std.specs.Prelude.{◌≡◌, ◌↔◌, [], ◌∷◌, map, take, drop, IsTrue, true, false};
ghost use Rattle.sqlite.specs.declared.types.Value.TheVariants.{Null};
ghost use Rattle.sqlite_value.specs.Keys.{plain};
ghost use Rattle.store_sql.specs.Schema.{book_schema, HasTables, are_later as stand_later, are_on_later as are_on_others};
ghost use Rattle.keeper_sqlite.specs.Own.{column_of, table_of, index_of, key_indexes};

use sqlite_items::Items;
use sqlite_schema::schema::{Column, Index, Schema, Table};
use sqlite_value::keys::{Collation, Order};
use sqlite_value::value::Value;
use store_sql::{ACT_COLUMNS, LINE_COLUMNS, RECORD_COLUMNS, SqlColumn};

fn is_null(value: &Value) -> bool
    ensures { IsTrue result ↔ (value.now ≡ Null) }
{
    match value {
        Value::Null => true,
        _ => false,
    }
}

fn is_column(column: &Column, wanted: SqlColumn) -> bool
    ensures { IsTrue result ↔ (column.now ≡ column_of wanted.entry) }
{
    let (name, kind, not_null) = wanted;
    column.name.as_slice() == name.as_bytes()
        && column.kind == kind
        && column.is_strict
        && column.not_null == not_null
        && is_null(&column.default)
        && column.collation == Collation::Binary
}

fn are_columns(columns: &[Column], wanted: &[SqlColumn]) -> bool
    ensures { IsTrue result ↔ (columns.entry.now ≡ map column_of wanted.entry.now) }
{
    let mut left = columns;
    let mut named = wanted;
    while let [column, columns @ ..] = left {
        let [first, others @ ..] = named else {
            return false;
        };
        if !is_column(column, *first) {
            return false;
        }
        left = columns;
        named = others;
    }
    named.is_empty()
}

/// Whether a table has nothing but its columns and keys.
fn is_bare(table: &Table) -> bool
    ensures { IsTrue result ↔ ((table.now.checks ≡ []) × (table.now.references ≡ []) × (table.now.computed ≡ []) × (table.now.stamps ≡ record { places = []; terms = []; formats = [] }) × (table.now.is_counted ≡ false)) }
{
    table.checks.roots.is_empty()
        && table.references.is_empty()
        && table.computed.is_empty()
        && table.stamps.places.is_empty()
        && table.stamps.terms.roots.is_empty()
        && table.stamps.formats.is_empty()
        && !table.is_counted
}

/// A table and its index.
struct Shape {
    name: &'static str,
    index: &'static str,
    tree: u8,
    columns: &'static [SqlColumn],
    key: Option<usize>,
    primary: &'static [usize],
    unique: &'static [usize],
}

/// Whether that one key is there.
fn is_one(keys: &[Items<usize>], wanted: &[usize]) -> bool
    ensures { IsTrue result ↔ (keys.now ≡ wanted.now ∷ []) }
{
    let [key] = keys else {
        return false;
    };
    key.as_slice() == wanted
}

/// Whether one order is there, the plain one.
fn is_plain(orders: &[Order]) -> bool
    ensures { IsTrue result ↔ (orders.now ≡ plain ∷ []) }
{
    let [order] = orders else {
        return false;
    };
    order.digits == 0
}

fn is_table(table: &Table, shape: &Shape) -> bool
    ensures { IsTrue result ↔ (table.now ≡ table_of shape.now) }
{
    table.name.as_slice() == shape.name.as_bytes()
        && table.tree == u32::from(shape.tree)
        && are_columns(table.columns.as_slice(), shape.columns)
        && table.key == shape.key
        && table.primary.as_slice() == shape.primary
        && is_one(table.uniques.as_slice(), shape.unique)
        && is_plain(table.orders.as_slice())
        && is_bare(table)
}

fn is_index(index: &Index, shape: &Shape) -> bool
    ensures { IsTrue result ↔ (index.now ≡ index_of shape.now) }
{
    index.name.as_slice() == shape.index.as_bytes()
        && index.tree == u32::from(shape.tree) + 1
        && index.table == u32::from(shape.tree)
        && index.columns.as_slice() == shape.unique
        && index.order.digits == 0
        && index.is_unique
}

const ACTS: Shape = Shape {
    name: "acts",
    index: "sqlite_autoindex_acts_1",
    tree: 0,
    columns: ACT_COLUMNS,
    key: Some(0),
    primary: &[0],
    unique: &[3, 4],
};

const RECORDS: Shape = Shape {
    name: "records",
    index: "sqlite_autoindex_records_1",
    tree: 2,
    columns: RECORD_COLUMNS,
    key: Some(0),
    primary: &[0],
    unique: &[2, 3],
};

const LINES: Shape = Shape {
    name: "lines",
    index: "sqlite_autoindex_lines_1",
    tree: 4,
    columns: LINE_COLUMNS,
    key: None,
    primary: &[1, 2],
    unique: &[1, 2],
};

fn are_tables(tables: &[Table]) -> bool
    ensures { IsTrue result ↔ (tables.now ≡ book_schema.tables) }
{
    let [acts, records, lines] = tables else {
        return false;
    };
    is_table(acts, &ACTS) && is_table(records, &RECORDS) && is_table(lines, &LINES)
}

fn are_indexes(indexes: &[Index]) -> bool
    ensures { IsTrue result ↔ (indexes.now ≡ key_indexes) }
{
    let [acts, records, lines] = indexes else {
        return false;
    };
    is_index(acts, &ACTS) && is_index(records, &RECORDS) && is_index(lines, &LINES)
}

/// Whether each table stands in a later tree than the three and than those before it, and refers to no table.
fn are_later(tables: &[Table]) -> bool
    ensures { result ≡ stand_later 5 tables.entry.now }
{
    let mut tree = 5;
    let mut left = tables;
    while let [table, others @ ..] = left {
        if table.tree <= tree || !table.references.is_empty() {
            return false;
        }
        tree = table.tree;
        left = others;
    }
    true
}

/// Whether no index is on one of the three tables.
fn are_on_later(indexes: &[Index]) -> bool
    ensures { result ≡ are_on_others 5 indexes.entry.now }
{
    let mut left = indexes;
    while let [index, others @ ..] = left {
        if index.table <= 5 {
            return false;
        }
        left = others;
    }
    true
}

#[tactic(auto, using(crate::proofs::Schemas::few_tables))]
fn begin_tables(tables: &[Table]) -> bool
    ensures { IsTrue result ↔ ((take 3 tables.now ≡ book_schema.tables) × (stand_later 5 (drop 3 tables.now) ≡ true)) }
{
    if tables.len() < 3 {
        return false;
    }
    let (first, others) = tables.split_at(3);
    are_tables(first) && are_later(others)
}

#[tactic(auto, using(crate::proofs::Schemas::few_indexes, crate::proofs::Schemas::indexes_named))]
fn begin_indexes(indexes: &[Index]) -> bool
    ensures { IsTrue result ↔ ((take 3 indexes.now ≡ book_schema.indexes) × (are_on_others 5 (drop 3 indexes.now) ≡ true)) }
{
    if indexes.len() < 3 {
        return false;
    }
    let (first, others) = indexes.split_at(3);
    are_indexes(first) && are_on_later(others)
}

/// Whether the three tables are there as they are made, each with its index, and nothing else that touches them.
#[tactic(auto, using(crate::proofs::Schemas::has_both, crate::proofs::Schemas::both_had))]
pub fn has_tables(schema: &Schema) -> bool
    ensures { IsTrue result ↔ HasTables schema.now }
{
    begin_tables(schema.tables.as_slice()) && begin_indexes(schema.indexes.as_slice())
}
