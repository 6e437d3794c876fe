//! Tables that are given, and where an act done again differs from them.

ghost use Rattle.std.specs.Prelude.{◌≡◌, map, length, option_to_list};
ghost use Rattle.std.specs.Option.{option_copied};
ghost use Rattle.std.specs.Cmp.Lexicographic.{pointwise};
ghost use Rattle.book_rows.specs.Book.{Book, book_of};
ghost use Rattle.book_rows.specs.Same.{same_record, same_line};
ghost use Rattle.office_step.specs.Valid.{difference, fault_in, records_by, lines_by, stray, stray_row};

use crate::compare::{are_lines_by, are_records_by};
use crate::near::{lines_near, records_near};
use crate::strays::{stray_line, stray_record};
use book_rows::{ActRow, Batch, Table, Tables, same_act};
use office_step::Fault;
use record_history::{Dates, Record};
use std::marker::Model;
use voucher_core::Line;

/// Tables whose acts are done again, with what one walk over them saw.
///
/// Where no row is out of place, the rows of each act are one stretch, which is found without a scan.
#[derive(Drop)]
pub struct StoredRows<'a> {
    tables: &'a Tables,
    /// The act of the first record that is out of place.
    stray_record: Option<u32>,
    /// The act of the first line that is out of place.
    stray_line: Option<u32>,
}

impl<'a> Model for StoredRows<'a> {
    ghost Value = { Book };

    ghost view = { λ g. book_of g.tables.now };

    ghost invariant = { λ g.
        (g.stray_record ≡ stray (length g.tables.now.acts.items) 0 (map (λ r. r.act) g.tables.now.records.items))
        × (g.stray_line ≡ stray (length g.tables.now.acts.items) 0 (map (λ line. line.act) g.tables.now.lines.items)) };
}

impl<'a> StoredRows<'a> {
    /// These tables, after one walk over their records and lines.
    pub fn new(tables: &'a Tables) -> StoredRows<'a>
        ensures { result ≡ book_of tables.now }
    {
        let count = tables.acts.len();
        let stray_record = stray_record(count, &tables.records);
        let stray_line = stray_line(count, &tables.lines);
        StoredRows {
            tables,
            stray_record,
            stray_line,
        }
    }

    /// The first row that no act made: a record, else a line.
    pub fn stray_row(&self) -> Option<Fault>
        ensures { result ≡ stray_row self.now }
    {
        match (self.stray_record, self.stray_line) {
            (Some(act), _) => Some(fault_in(Table::Records, act)),
            (None, Some(act)) => Some(fault_in(Table::Lines, act)),
            (None, None) => None,
        }
    }

    /// Where the rows that the act appends, if it appends any, differ from those that the tables have of it.
    pub fn difference(&self, row: &ActRow, rows: Option<&Batch>) -> Option<Fault>
        ensures { result ≡ difference self.now row.now (option_copied rows.entry) }
    {
        let Some(rows) = rows else {
            return Some(fault_in(Table::Acts, row.n));
        };
        if !same_act(&rows.act, row) {
            return Some(fault_in(Table::Acts, row.n));
        }
        if !self.has_made(&rows.made, row.n) {
            return Some(fault_in(Table::Records, row.n));
        }
        if !self.has_lines(rows.lines.as_slice(), row.n) {
            return Some(fault_in(Table::Lines, row.n));
        }
        None
    }

    fn has_made(&self, made: &Option<Record>, n: u32) -> bool
        ensures { result ≡ pointwise same_record (option_to_list made.now) (records_by n self.now.records) }
    {
        let near = records_near(&self.tables.records, self.stray_record.is_none(), n);
        is_made(made, n, near)
    }

    fn has_lines(&self, lines: &[Line], n: u32) -> bool
        ensures { result ≡ pointwise same_line lines.now (lines_by n self.now.lines) }
    {
        let near = lines_near(&self.tables.lines, self.stray_line.is_none(), n);
        are_lines_by(lines, n, near)
    }
}

fn fault_in(table: Table, act: u32) -> Fault
    ensures { result ≡ fault_in table act }
{
    Fault { table, act }
}

// Whether the records that name the act are that one, or none.
fn is_made(made: &Option<Record>, n: u32, records: &[Record]) -> bool
    ensures { result ≡ pointwise same_record (option_to_list made.now) (records_by n records.now) }
{
    // The check of a copy of a record refuses a type that the function doesn't name.
    let _dates: Option<Dates> = None;
    match made {
        Some(made) => are_records_by(&[*made], n, records),
        None => are_records_by(&[], n, records),
    }
}
