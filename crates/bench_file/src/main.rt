//! What the rows of a book's file take in bare transactions: reads the rows of one file, and writes them into a new one, those
//! of each act by one transaction. Prints how many acts there were.
#![tactic(auto)]

use sqlite::types::ValueRef;
use sqlite::{Alter, Connection, Error, Options, Row, Transaction, Unknown};
use sqlite_disk::{Disk, Files};
use std::alloc::Global;
use std::env;
use std::process::ExitCode;

const ACTS: &str =
    "CREATE TABLE acts (n INTEGER PRIMARY KEY, session INTEGER NOT NULL, clerk INTEGER NOT NULL, request INTEGER NOT NULL, day INTEGER NOT NULL, body TEXT NOT NULL, UNIQUE (clerk, request)) STRICT";

const RECORDS: &str =
    "CREATE TABLE records (act INTEGER PRIMARY KEY, household INTEGER NOT NULL, number INTEGER NOT NULL, kind INTEGER NOT NULL, first INTEGER NOT NULL, corrects INTEGER NOT NULL, unit INTEGER NOT NULL, persons INTEGER NOT NULL, size INTEGER NOT NULL, extremely INTEGER NOT NULL, annual INTEGER NOT NULL, adjusted INTEGER NOT NULL, ttp INTEGER NOT NULL, contract_rent INTEGER NOT NULL, utility INTEGER NOT NULL, assistance INTEGER NOT NULL, event INTEGER, notice INTEGER, done INTEGER, UNIQUE (household, number)) STRICT";

const LINES: &str =
    "CREATE TABLE lines (act INTEGER NOT NULL, place INTEGER NOT NULL, month INTEGER NOT NULL, household INTEGER NOT NULL, for_month INTEGER NOT NULL, first INTEGER NOT NULL, last INTEGER NOT NULL, old INTEGER NOT NULL, new INTEGER NOT NULL, amount INTEGER NOT NULL, PRIMARY KEY (act, place)) STRICT";

const PUT_ACT: &str = "INSERT INTO acts VALUES (?1, ?2, ?3, ?4, ?5, ?6)";

const PUT_RECORD: &str =
    "INSERT INTO records VALUES (?1, ?2, ?3, ?4, ?5, ?6, ?7, ?8, ?9, ?10, ?11, ?12, ?13, ?14, ?15, ?16, ?17, ?18, ?19)";

const PUT_LINE: &str = "INSERT INTO lines VALUES (?1, ?2, ?3, ?4, ?5, ?6, ?7, ?8, ?9, ?10)";

/// The rows of the three tables, in the order of their acts.
#[derive(Drop)]
struct Rows {
    acts: Vec<Row>,
    records: Vec<Row>,
    lines: Vec<Row>,
}

fn main(rt: HostRuntime) -> ExitCode {
    match run(&rt) {
        Some(()) => ExitCode::SUCCESS,
        None => ExitCode::FAILURE,
    }
}

/// Copies the file that the first word names into the one that the second names; tells what words it takes where there are none.
fn run(rt: &HostRuntime) -> Option<()> {
    let words: Vec<String> = env::args(rt).ok()?.skip(1).collect(rt.alloc()).ok()?;
    match words.as_slice() {
        [] => println!(rt; "usage: bench_file FROM TO").ok(),
        [from, to] => {
            let acts = copy(rt, from, to)?;
            println!(rt; "{acts} acts").ok()
        }
        _ => None,
    }
}

/// Copies the rows of one file into a new one, and gives how many acts there were.
fn copy(rt: &HostRuntime, from: &str, to: &str) -> Option<usize> {
    let from = sqlite_std_file::open(rt, from, Unknown).ok()?;
    let rows = rows_in(rt.alloc(), from)?;
    let to = sqlite_std_file::open(rt, to, Unknown).ok()?;
    keep(rt.alloc(), to, &rows).then_some(rows.acts.len())
}

/// Whether a new file holds the rows then. This and the next speak of any disk, since a check of a file's own has all its parts
/// before it.
fn keep<D: Disk + Drop>(alloc: Global, files: Files<D>, rows: &Rows) -> bool {
    if !files.may_be_used() {
        return false;
    }
    match Connection::open_files(alloc, files, Options::new(1)) {
        Ok(mut to) => {
            let is_filled = fill(alloc, &mut to, rows).is_ok();
            to.close().is_ok() && is_filled
        }
        Err(_) => false,
    }
}

fn rows_in<D: Disk + Drop>(alloc: Global, files: Files<D>) -> Option<Rows> {
    if !files.may_be_used() {
        return None;
    }
    match Connection::open_files(alloc, files, Options::new(1)) {
        Ok(mut from) => {
            let rows = rows_of(&mut from).ok();
            // (a connection that goes out of use here would bring all that its store frees into this function's proof)
            from.close().is_ok().then_some(rows)?
        }
        Err(_) => None,
    }
}

fn fill<S: Alter>(alloc: Global, conn: &mut Connection<S>, rows: &Rows) -> Result<(), Error> {
    conn.execute(ACTS, &[])?;
    conn.execute(RECORDS, &[])?;
    conn.execute(LINES, &[])?;
    write_all(alloc, conn, rows)
}

fn rows_of<S: Alter>(conn: &mut Connection<S>) -> Result<Rows, Error> {
    Ok(Rows {
        acts: conn.query_all("SELECT * FROM acts ORDER BY n", &[])?,
        records: conn.query_all("SELECT * FROM records ORDER BY act", &[])?,
        lines: conn.query_all("SELECT * FROM lines ORDER BY act, place", &[])?,
    })
}

fn write_all<S: Alter>(alloc: Global, conn: &mut Connection<S>, rows: &Rows) -> Result<(), Error> {
    let mut records = rows.records.as_slice();
    let mut lines = rows.lines.as_slice();
    for act in &rows.acts {
        (records, lines) = write_act(alloc, conn, act, records, lines)?;
    }
    Ok(())
}

/// Writes an act with the rows of its number, by one transaction, and gives the rows behind these.
fn write_act<'a, S: Alter>(
    alloc: Global,
    conn: &mut Connection<S>,
    act: &Row,
    records: &'a [Row],
    lines: &'a [Row],
) -> Result<(&'a [Row], &'a [Row]), Error> {
    if !conn.is_autocommit() {
        return Err(Error::InvalidQuery);
    }
    let number: i64 = act.get(0)?;
    let mut tx = conn.transaction();
    write(alloc, &mut tx, PUT_ACT, act)?;
    let records = write_own(alloc, &mut tx, PUT_RECORD, number, records)?;
    let lines = write_own(alloc, &mut tx, PUT_LINE, number, lines)?;
    tx.commit()?;
    Ok((records, lines))
}

/// Writes the rows in front that are the act's, and gives those behind.
fn write_own<'a, S: Alter>(
    alloc: Global,
    tx: &mut Transaction<'_, S>,
    sql: &str,
    number: i64,
    rows: &'a [Row],
) -> Result<&'a [Row], Error> {
    for (at, row) in rows.iter().enumerate() {
        if row.get::<i64>(0)? != number {
            return Ok(&rows[at..]);
        }
        write(alloc, tx, sql, row)?;
    }
    Ok(&[])
}

fn write<S: Alter>(
    alloc: Global,
    tx: &mut Transaction<'_, S>,
    sql: &str,
    row: &Row,
) -> Result<(), Error> {
    let mut values = Vec::new(alloc);
    for at in 0..row.column_count() {
        values.push(row.get_ref(at)?)?;
    }
    tx.execute(sql, &values)?;
    Ok(())
}
