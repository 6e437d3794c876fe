//! A row of the book: the cells of its table that stand for it, and the row that has such cells.

ghost use Rattle.std.specs.Prelude.{◌≡◌, [], ◌∷◌, true, false, IfOk, MatchOption, option_map};
ghost use Rattle.sqlite_value.specs.Value.{owned};
ghost use Rattle.sqlite.specs.Values.{bound, bound_value};
ghost use Rattle.sqlite_sql.specs.Ops.{is_null};
ghost use Rattle.store_sql.specs.Cells.{maybe_day_cell as cell_of_maybe_day, is_maybe_day};
ghost use Rattle.store_sql.specs.Tables.{fits, cells, have_all_or_none};
ghost use Rattle.store_sql.specs.Columns.{acts, records, lines};

use crate::cells::{
    amount_at, amount_cell, day_at, day_cell, flag_at, flag_cell, kind_at, kind_cell, maybe_day_at,
    maybe_day_cell, month_at, month_cell, number_at, number_cell, words_at, words_cell,
};
use crate::columns::{
    ACT_COLUMNS, CREATE_ACTS, CREATE_LINES, CREATE_RECORDS, INSERT_ACT, INSERT_LINE, INSERT_RECORD,
    LINE_COLUMNS, RECORD_COLUMNS, SELECT_ACTS, SELECT_LINES, SELECT_RECORDS,
};
use crate::types::are_of;
use book_rows::ActRow;
use days_core::{Day, Rents};
use plain_data::NoMemory;
use record_history::{Dates, Record};
use sqlite::Row;
use sqlite::types::ValueRef;
use std::alloc::Global;
use voucher_core::Line;

/// A row of the book, which a table of its file holds: the texts of the statements on the table, and the row of some cells.
pub trait StoredRow: Sized + Drop {
    ghost use Rattle.std.specs.Prelude.{◌≡◌, true, false, IfOk, MatchOption};
    ghost use Rattle.store_sql.specs.Tables.{Table, fits, cells, create_text as create_of, insert_text as insert_of, select_text as select_of};
    ghost use Rattle.store_sql.specs.Types.{is_typed as is_row_of};

    ghost table: { Table Self };

    /// Makes the table.
    fn create_text() -> &'static str
        ensures { result.now ≡ create_of table };

    /// Puts a row in.
    fn insert_text() -> &'static str
        ensures { result.now ≡ insert_of table };

    /// Shows the rows in the order of their keys.
    fn select_text() -> &'static str
        ensures { result.now ≡ select_of table };

    /// Whether each cell is of its column's type.
    fn is_typed(row: &Row) -> bool
        ensures { result ≡ is_row_of table row.now };

    /// The row that has these cells, if each is of what its column holds.
    fn of_cells(alloc: Global, row: &Row) -> Result<Option<Self>, NoMemory>
        ensures { IfOk result (λ read. MatchOption read (fits table row.now ≡ false) (λ a. (fits table row.now ≡ true) × (cells table a ≡ row.now))) };
}

/// The cells of an act.
pub fn act_cells<'a>(act: &'a ActRow) -> [ValueRef<'a>; 6]
    ensures cells { bound result ≡ cells acts act.now }
    ensures fits { fits acts (cells acts act.now) ≡ true }
{
    [
        number_cell(act.n),
        number_cell(act.session),
        number_cell(act.clerk),
        number_cell(act.request),
        day_cell(act.day),
        words_cell(&act.body),
    ]
}

impl StoredRow for ActRow {
    ghost use Rattle.store_sql.specs.Columns.{acts};

    ghost table = { acts };

    fn create_text() -> &'static str {
        CREATE_ACTS
    }

    fn insert_text() -> &'static str {
        INSERT_ACT
    }

    fn select_text() -> &'static str {
        SELECT_ACTS
    }

    fn is_typed(row: &Row) -> bool {
        are_of(row, ACT_COLUMNS)
    }

    fn of_cells(alloc: Global, row: &Row) -> Result<Option<ActRow>, NoMemory> {
        act_of(alloc, row)
    }
}

/// The act that a row stands for.
fn act_of(alloc: Global, row: &Row) -> Result<Option<ActRow>, NoMemory>
    ensures { IfOk result (λ read. MatchOption read (fits acts row.now ≡ false) (λ act. (fits acts row.now ≡ true) × (cells acts act ≡ row.now))) }
{
    if row.column_count() != 6 {
        return Ok(None);
    }
    let Some(n) = number_at(row, 0) else {
        return Ok(None);
    };
    let Some(session) = number_at(row, 1) else {
        return Ok(None);
    };
    let Some(clerk) = number_at(row, 2) else {
        return Ok(None);
    };
    let Some(request) = number_at(row, 3) else {
        return Ok(None);
    };
    let Some(day) = day_at(row, 4) else {
        return Ok(None);
    };
    let Some(body) = words_at(alloc, row, 5)? else {
        return Ok(None);
    };
    Ok(Some(ActRow {
        n,
        session,
        clerk,
        request,
        day,
        body,
    }))
}

/// The days of a change, or NULL three times.
fn date_cells<'a>(dates: Option<Dates>) -> (ValueRef<'a>, ValueRef<'a>, ValueRef<'a>)
    ensures event { bound_value (owned result.0) ≡ cell_of_maybe_day (option_map (λ d. d.event) dates) }
    ensures notice { bound_value (owned result.1) ≡ cell_of_maybe_day (option_map (λ d. d.notice) dates) }
    ensures done { bound_value (owned result.2) ≡ cell_of_maybe_day (option_map (λ d. d.done) dates) }
    ensures event_fits { is_maybe_day (cell_of_maybe_day (option_map (λ d. d.event) dates)) ≡ true }
    ensures notice_fits { is_maybe_day (cell_of_maybe_day (option_map (λ d. d.notice) dates)) ≡ true }
    ensures done_fits { is_maybe_day (cell_of_maybe_day (option_map (λ d. d.done) dates)) ≡ true }
    ensures all { have_all_or_none (is_null (cell_of_maybe_day (option_map (λ d. d.event) dates)) ∷ is_null (cell_of_maybe_day (option_map (λ d. d.notice) dates)) ∷ is_null (cell_of_maybe_day (option_map (λ d. d.done) dates)) ∷ []) ≡ true }
{
    match dates {
        None => (
            maybe_day_cell(None),
            maybe_day_cell(None),
            maybe_day_cell(None),
        ),
        Some(days) => (
            maybe_day_cell(Some(days.event)),
            maybe_day_cell(Some(days.notice)),
            maybe_day_cell(Some(days.done)),
        ),
    }
}

/// The days of a change: three or none, and None where they are neither.
fn dates_of(event: Option<Day>, notice: Option<Day>, done: Option<Day>) -> Option<Option<Dates>>
    ensures { MatchOption result (have_all_or_none (is_null (cell_of_maybe_day event) ∷ is_null (cell_of_maybe_day notice) ∷ is_null (cell_of_maybe_day done) ∷ []) ≡ false) (λ found. (have_all_or_none (is_null (cell_of_maybe_day event) ∷ is_null (cell_of_maybe_day notice) ∷ is_null (cell_of_maybe_day done) ∷ []) ≡ true) × ((option_map (λ d. d.event) found ≡ event) × ((option_map (λ d. d.notice) found ≡ notice) × (option_map (λ d. d.done) found ≡ done)))) }
{
    match (event, notice, done) {
        (None, None, None) => Some(None),
        (Some(event), Some(notice), Some(done)) => Some(Some(Dates {
            event,
            notice,
            done,
        })),
        _ => None,
    }
}

/// The cells of a record.
pub fn record_cells<'a>(made: &Record) -> [ValueRef<'a>; 19]
    ensures cells { bound result ≡ cells records made.now }
    ensures fits { fits records (cells records made.now) ≡ true }
{
    let (event, notice, done) = date_cells(made.dates);
    [
        number_cell(made.act),
        number_cell(made.household),
        number_cell(made.number),
        kind_cell(made.kind),
        day_cell(made.from),
        number_cell(made.corrects),
        number_cell(made.unit),
        number_cell(made.persons),
        number_cell(made.size),
        flag_cell(made.extremely),
        number_cell(made.annual),
        number_cell(made.adjusted),
        number_cell(made.ttp),
        number_cell(made.rents.contract_rent),
        number_cell(made.rents.utility),
        number_cell(made.assistance),
        event,
        notice,
        done,
    ]
}

/// The record that a row stands for.
fn record_of(row: &Row) -> Option<Record>
    ensures { MatchOption result (fits records row.now ≡ false) (λ made. (fits records row.now ≡ true) × (cells records made ≡ row.now)) }
{
    if row.column_count() != 19 {
        return None;
    }
    let event = maybe_day_at(row, 16)?;
    let notice = maybe_day_at(row, 17)?;
    let done = maybe_day_at(row, 18)?;
    Some(Record {
        act: number_at(row, 0)?,
        household: number_at(row, 1)?,
        number: number_at(row, 2)?,
        kind: kind_at(row, 3)?,
        from: day_at(row, 4)?,
        corrects: number_at(row, 5)?,
        unit: number_at(row, 6)?,
        persons: number_at(row, 7)?,
        size: number_at(row, 8)?,
        extremely: flag_at(row, 9)?,
        annual: number_at(row, 10)?,
        adjusted: number_at(row, 11)?,
        ttp: number_at(row, 12)?,
        rents: Rents {
            contract_rent: number_at(row, 13)?,
            utility: number_at(row, 14)?,
        },
        assistance: number_at(row, 15)?,
        dates: dates_of(event, notice, done)?,
    })
}

impl StoredRow for Record {
    ghost use Rattle.store_sql.specs.Columns.{records};

    ghost table = { records };

    fn create_text() -> &'static str {
        CREATE_RECORDS
    }

    fn insert_text() -> &'static str {
        INSERT_RECORD
    }

    fn select_text() -> &'static str {
        SELECT_RECORDS
    }

    fn is_typed(row: &Row) -> bool {
        are_of(row, RECORD_COLUMNS)
    }

    fn of_cells(_alloc: Global, row: &Row) -> Result<Option<Record>, NoMemory> {
        Ok(record_of(row))
    }
}

/// The cells of a line.
pub fn line_cells<'a>(line: &Line) -> [ValueRef<'a>; 10]
    ensures cells { bound result ≡ cells lines line.now }
    ensures fits { fits lines (cells lines line.now) ≡ true }
{
    [
        number_cell(line.act),
        number_cell(line.place),
        month_cell(line.month),
        number_cell(line.household),
        month_cell(line.for_month),
        day_cell(line.first),
        day_cell(line.last),
        number_cell(line.old),
        number_cell(line.new),
        amount_cell(line.amount),
    ]
}

fn line_of(row: &Row) -> Option<Line>
    ensures { MatchOption result (fits lines row.now ≡ false) (λ line. (fits lines row.now ≡ true) × (cells lines line ≡ row.now)) }
{
    if row.column_count() != 10 {
        return None;
    }
    let act = number_at(row, 0)?;
    let place = number_at(row, 1)?;
    let closed = month_at(row, 2)?;
    let household = number_at(row, 3)?;
    let for_month = month_at(row, 4)?;
    let first = day_at(row, 5)?;
    let last = day_at(row, 6)?;
    let old = number_at(row, 7)?;
    let new = number_at(row, 8)?;
    let amount = amount_at(row, 9)?;
    Some(Line {
        act,
        place,
        month: closed,
        household,
        for_month,
        first,
        last,
        old,
        new,
        amount,
    })
}

impl StoredRow for Line {
    ghost use Rattle.store_sql.specs.Columns.{lines};

    ghost table = { lines };

    fn create_text() -> &'static str {
        CREATE_LINES
    }

    fn insert_text() -> &'static str {
        INSERT_LINE
    }

    fn select_text() -> &'static str {
        SELECT_LINES
    }

    fn is_typed(row: &Row) -> bool {
        are_of(row, LINE_COLUMNS)
    }

    fn of_cells(_alloc: Global, row: &Row) -> Result<Option<Line>, NoMemory> {
        Ok(line_of(row))
    }
}
