//! The statements on a book's file.

use book_rows::{ActRow, Batch, Tables};
use days_core::{Day, Month, Rents, day_of_text, month_of_text};
use keeper_core::Loaded;
use plain_data::{Listed, SharedText};
use record_history::{Dates, Kind, Record};
use sqlite::{Connection, MemStore};
use std::alloc::Global;
use std::process::Abort;
use store_decode::narrowed;
use store_read::{AskFault, AskedRows, ask_tables};
use store_write::{make_tables, write_batch};
use voucher_core::Line;

pub(crate) fn file(rt: &impl Abort, alloc: Global) -> Connection<MemStore> {
    let mut conn = Connection::open_in_memory(alloc).expect(rt, "memory");
    assert!(rt; make_tables(&mut conn).is_ok());
    conn
}

fn day(rt: &impl Abort, text: &str) -> Day {
    match day_of_text(text) {
        Ok(day) => day,
        Err(_) => panic!(rt; "no day"),
    }
}

fn month(rt: &impl Abort, text: &str) -> Month {
    match month_of_text(text) {
        Ok(month) => month,
        Err(_) => panic!(rt; "no month"),
    }
}

fn certified(rt: &impl Abort) -> Record {
    Record {
        household: 1,
        number: 1,
        act: 1,
        kind: Kind::IC,
        from: day(rt, "2024-01-01"),
        corrects: 0,
        unit: 1,
        persons: 1,
        size: 1,
        extremely: false,
        annual: 9_600,
        adjusted: 8_488,
        ttp: 212,
        rents: Rents {
            contract_rent: 700,
            utility: 60,
        },
        assistance: 548,
        dates: Some(Dates {
            event: day(rt, "2024-01-02"),
            notice: day(rt, "2024-01-03"),
            done: day(rt, "1880-01-01"),
        }),
    }
}

fn line(rt: &impl Abort, place: u32, amount: i32) -> Line {
    Line {
        act: 1,
        place,
        month: month(rt, "2024-01"),
        household: 1,
        for_month: month(rt, "2024-01"),
        first: day(rt, "2024-01-01"),
        last: day(rt, "2024-01-31"),
        old: 0,
        new: 1,
        amount,
    }
}

/// The act of that number, with a record and two lines if it is the first.
pub(crate) fn batch(rt: &impl Abort, alloc: Global, n: u32) -> Batch {
    let body = "{}".as_bytes().to_vec(alloc).expect(rt, "memory");
    let mut lines = Vec::new(alloc);
    let mut made = None;
    if n == 1 {
        made = Some(certified(rt));
        lines.push(line(rt, 1, 548)).expect(rt, "memory");
        lines.push(line(rt, 2, -50)).expect(rt, "memory");
    }
    Batch {
        act: ActRow {
            n,
            session: 1,
            clerk: 1,
            request: n,
            day: day(rt, "2024-01-01"),
            body: SharedText::new(body).expect(rt, "memory"),
        },
        made,
        lines: Listed::new(lines),
    }
}

/// The rows that the file holds.
fn asked(rt: &impl Abort, alloc: Global, conn: &mut Connection<MemStore>) -> Tables {
    let Ok(
        AskedRows {
            acts,
            records,
            lines,
        },
    ) = ask_tables(conn, alloc)
    else {
        panic!(rt; "no rows");
    };
    match narrowed(acts, records, lines) {
        Loaded::Rows(tables) => tables,
        _ => panic!(rt; "a row out of range"),
    }
}

/// The number that a query gives.
fn stored(rt: &impl Abort, conn: &mut Connection<MemStore>, sql: &str) -> i64 {
    match conn.query_row(sql, &[]) {
        Ok(row) => row.get(0).unwrap_or(-1),
        Err(_) => panic!(rt; "no row"),
    }
}

/// What a column of the first act, record or line holds.
const STORED: [(&str, i64); 10] = [
    ("SELECT day FROM acts WHERE n = 1", 19_723),
    ("SELECT kind FROM records", 2),
    ("SELECT first FROM records", 19_723),
    ("SELECT extremely FROM records", 0),
    ("SELECT event FROM records", 19_724),
    ("SELECT notice FROM records", 19_725),
    ("SELECT done FROM records", -32_872),
    ("SELECT month FROM lines WHERE place = 1", 24_288),
    ("SELECT last FROM lines WHERE place = 2", 19_753),
    ("SELECT amount FROM lines WHERE place = 2", -50),
];

/// Whether the batch of that number is written.
pub(crate) fn writes(
    rt: &impl Abort,
    alloc: Global,
    conn: &mut Connection<MemStore>,
    n: u32,
) -> bool {
    write_batch(conn, &batch(rt, alloc, n)).is_ok()
}

/// Lets the connection go. All that it frees is in this function's proof, and in no test's.
pub(crate) fn let_go(_conn: Connection<MemStore>) {}

/// The tables are made and two batches are written: the rows are stored in the file's forms, and given as they were.
#[test]
fn rows_are_given_as_they_were_written(rt: HostRuntime) {
    let alloc = rt.alloc();
    let mut conn = file(&rt, alloc);
    assert!(rt; writes(&rt, alloc, &mut conn, 1));
    assert!(rt; writes(&rt, alloc, &mut conn, 2));
    assert_both(&rt, alloc, &asked(&rt, alloc, &mut conn));
    for (sql, number) in &STORED {
        assert!(rt; stored(&rt, &mut conn, *sql) == *number, "{sql}");
    }
    let_go(conn);
}

/// The tables hold the rows of the first two batches.
pub(crate) fn assert_both(rt: &impl Abort, alloc: Global, tables: &Tables) {
    let (one, two) = (batch(rt, alloc, 1), batch(rt, alloc, 2));
    assert!(rt; tables.acts.len() == 2);
    assert!(rt; tables.acts[0] == one.act && tables.acts[1] == two.act);
    assert!(rt; tables.records.as_slice() == [certified(rt)].as_slice());
    assert!(rt; tables.lines.as_slice() == one.lines.as_slice());
}

/// An act that is there already is refused, and so is all of its batch.
#[test]
fn act_of_the_same_number_is_refused_whole(rt: HostRuntime) {
    let alloc = rt.alloc();
    let mut conn = file(&rt, alloc);
    assert!(rt; writes(&rt, alloc, &mut conn, 1));
    assert!(rt; !writes(&rt, alloc, &mut conn, 1));
    assert!(rt; counts(&asked(&rt, alloc, &mut conn)) == (1, 1, 2));
    let_go(conn);
}

/// How many acts, records and lines the tables have.
fn counts(tables: &Tables) -> (usize, usize, usize) {
    (tables.acts.len(), tables.records.len(), tables.lines.len())
}

/// A file with one of the three tables alone has no rows to give, and can't get the others.
#[test]
fn file_with_one_of_the_tables_is_refused(rt: HostRuntime) {
    let alloc = rt.alloc();
    let mut conn = Connection::open_in_memory(alloc).expect(&rt, "memory");
    assert!(rt;
        conn.execute("CREATE TABLE lines (n INTEGER) STRICT", &[])
            .is_ok()
    );
    match ask_tables(&mut conn, alloc) {
        Err(AskFault::Acts(_)) => {}
        _ => panic!(rt; "rows of a file without acts"),
    }
    assert!(rt; make_tables(&mut conn).is_err());
    assert!(rt; !writes(&rt, alloc, &mut conn, 1));
    let_go(conn);
}
