//! The program on a file, and on one that another hand changed.

use book_rows::Tables;
use keeper_core::{Keeper, Loaded, MemoryKeeper};
use keeper_sqlite::SqliteKeeper;
use run_harness::{Told, five_months};
use sqlite::{Connection, MemStore};
use std::alloc::Global;
use std::process::Abort;

fn new_file(rt: &impl Abort, alloc: Global) -> Connection<MemStore> {
    Connection::open_in_memory(alloc).expect(rt, "memory")
}

/// Has nine acts done on the book of the file, and gives the file again with what was told.
fn worked(
    rt: &impl Abort,
    alloc: Global,
    conn: Connection<MemStore>,
) -> (Told, Connection<MemStore>) {
    let mut keeper = SqliteKeeper::adopt(conn);
    let told = five_months(alloc, &mut keeper).expect(rt, "memory");
    (told, keeper.release())
}

/// What the nine acts are told on the book of the file.
fn told_on(rt: &impl Abort, alloc: Global, conn: Connection<MemStore>) -> Told {
    let (told, conn) = worked(rt, alloc, conn);
    let_go(conn);
    told
}

/// Lets the connection go. All that it frees is in this function's proof, and in no other's.
fn let_go(_conn: Connection<MemStore>) {}

/// A file with the book of the nine acts.
fn file(rt: &impl Abort, alloc: Global) -> Connection<MemStore> {
    let (told, conn) = worked(rt, alloc, new_file(rt, alloc));
    assert!(rt; told.has_lines(0, 9));
    conn
}

/// Changes the file by another hand.
fn change(rt: &impl Abort, conn: &mut Connection<MemStore>, sql: &str) {
    assert!(rt; conn.execute(sql, &[]).is_ok());
}

fn loaded(rt: &impl Abort, alloc: Global, conn: Connection<MemStore>) -> Tables {
    let mut keeper = SqliteKeeper::adopt(conn);
    let Loaded::Rows(tables) = keeper.load(alloc) else {
        panic!(rt; "no rows");
    };
    let_go(keeper.release());
    tables
}

/// Whether the tables have the same rows.
fn are_same(some: &Tables, others: &Tables) -> bool {
    some.acts.as_slice() == others.acts.as_slice()
        && some.records.as_slice() == others.records.as_slice()
        && some.lines.as_slice() == others.lines.as_slice()
}

/// What a file keeps of nine acts is what is kept in memory: one record and five lines.
#[test]
fn file_keeps_what_memory_keeps(rt: HostRuntime) {
    let alloc = rt.alloc();
    let mut memory = MemoryKeeper::new(alloc);
    assert!(rt; five_months(alloc, &mut memory).is_some_and(|told| told.has_lines(0, 9)));
    let tables = loaded(&rt, alloc, file(&rt, alloc));
    assert!(rt; tables.acts.len() == 9 && tables.records.len() == 1 && tables.lines.len() == 5);
    assert!(rt; are_same(&tables, memory.tables()));
}

/// Each act once more gets its first reply, by a run that opens the file again, and is kept once.
#[test]
fn repeats_are_answered_from_the_file(rt: HostRuntime) {
    let alloc = rt.alloc();
    let (first, conn) = worked(&rt, alloc, new_file(&rt, alloc));
    let (second, conn) = worked(&rt, alloc, conn);
    assert!(rt; first.has_lines(0, 9) && second.is(0, first.text.as_str()));
    assert!(rt; loaded(&rt, alloc, conn).acts.len() == 9);
}

/// A line for another amount isn't an office's, and a kind that there isn't is a bad row.
#[test]
fn changed_rows_are_named(rt: HostRuntime) {
    let alloc = rt.alloc();
    for (sql, line) in [
        (
            "UPDATE lines SET amount = 549 WHERE act = 5",
            "bad book: lines 5\n",
        ),
        ("UPDATE records SET kind = 10", "bad book: records 4\n"),
        ("UPDATE records SET event = 20000", "bad book: records 4\n"),
    ] {
        let mut conn = file(&rt, alloc);
        change(&rt, &mut conn, sql);
        assert!(rt; told_on(&rt, alloc, conn).is(6, line));
    }
}

/// Over a file with one of the three tables alone nothing is answered.
#[test]
fn one_table_alone_is_a_fault(rt: HostRuntime) {
    let alloc = rt.alloc();
    for sql in [
        "CREATE TABLE acts (n INTEGER) STRICT",
        "CREATE TABLE records (n INTEGER) STRICT",
        "CREATE TABLE lines (n INTEGER) STRICT",
    ] {
        let mut conn = new_file(&rt, alloc);
        change(&rt, &mut conn, sql);
        assert!(rt; told_on(&rt, alloc, conn).is(5, ""));
    }
}
