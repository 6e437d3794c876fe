//! The keeper of a file: what it loads, keeps and takes note of.

ghost use Rattle.std.specs.Prelude.{◌≡◌, true, IsTrue};
ghost use Rattle.std.specs.Str.{is_utf8};

use crate::statements::{assert_both, batch, file, let_go, writes};
use book_rows::{ActRow, Batch, Table, Tables};
use keeper_core::{Committed, Keeper, Loaded};
use keeper_sqlite::SqliteKeeper;
use plain_data::Listed;
use sqlite::{Connection, MemStore};
use std::alloc::Global;
use std::process::Abort;
use std::str;

/// A file with two acts, of which the first made a record and two lines.
fn written(rt: &impl Abort, alloc: Global) -> Connection<MemStore> {
    let mut conn = file(rt, alloc);
    assert!(rt; writes(rt, alloc, &mut conn, 1));
    assert!(rt; writes(rt, alloc, &mut conn, 2));
    conn
}

fn tables(rt: &impl Abort, alloc: Global, keeper: &mut SqliteKeeper<MemStore>) -> Tables {
    match keeper.load(alloc) {
        Loaded::Rows(tables) => tables,
        _ => panic!(rt; "no rows"),
    }
}

/// The first bad row of the written file after that change.
fn bad_row(rt: &impl Abort, alloc: Global, change: &str) -> (Table, u32) {
    let mut conn = written(rt, alloc);
    assert!(rt; conn.execute(change, &[]).is_ok());
    let mut keeper = SqliteKeeper::adopt(conn);
    let told = match keeper.load(alloc) {
        Loaded::BadRow { table, act } => (table, act),
        _ => panic!(rt; "no bad row"),
    };
    let_go(keeper.release());
    told
}

/// A new file is an empty book, and stays one.
#[test]
fn new_file_is_an_empty_book(rt: HostRuntime) {
    let alloc = rt.alloc();
    let conn = Connection::open_in_memory(alloc).expect(&rt, "memory");
    let mut keeper = SqliteKeeper::adopt(conn);
    assert!(rt; tables(&rt, alloc, &mut keeper).acts.is_empty());
    let mut again = SqliteKeeper::adopt(keeper.release());
    assert!(rt; tables(&rt, alloc, &mut again).acts.is_empty());
    assert!(rt; again.faults() == 0);
    let_go(again.release());
}

/// What was written is loaded, each number as it was.
#[test]
fn rows_are_loaded_as_they_were_written(rt: HostRuntime) {
    let alloc = rt.alloc();
    let mut keeper = SqliteKeeper::adopt(written(&rt, alloc));
    assert_both(&rt, alloc, &tables(&rt, alloc, &mut keeper));
    let_go(keeper.release());
}

/// A number out of its column's range makes its row the bad one.
#[test]
fn numbers_out_of_range_are_told(rt: HostRuntime) {
    let alloc = rt.alloc();
    for (change, table, act) in [
        ("UPDATE records SET kind = 10", Table::Records, 1),
        ("UPDATE records SET kind = 0", Table::Records, 1),
        ("UPDATE records SET extremely = 2", Table::Records, 1),
        ("UPDATE records SET event = NULL", Table::Records, 1),
        ("UPDATE records SET notice = NULL", Table::Records, 1),
        ("UPDATE records SET done = NULL", Table::Records, 1),
        ("UPDATE acts SET session = -1 WHERE n = 2", Table::Acts, 2),
        ("UPDATE acts SET day = 84006", Table::Acts, 1),
        ("UPDATE acts SET n = 4294967296 WHERE n = 2", Table::Acts, 0),
        ("UPDATE lines SET month = 22559", Table::Lines, 1),
        (
            "UPDATE lines SET amount = 2147483648 WHERE place = 2",
            Table::Lines,
            1,
        ),
        ("UPDATE lines SET act = -1 WHERE place = 2", Table::Lines, 0),
    ] {
        assert!(rt; bad_row(&rt, alloc, change) == (table, act));
    }
}

/// Sets each of the columns of a row to the number before the first day, which is below the range of all but amounts, and
/// tests that this row is the bad one.
fn assert_bounded(
    rt: &impl Abort,
    alloc: Global,
    table: &str,
    columns: &str,
    row: &str,
    wanted: (Table, u32),
) {
    for column in columns.split_whitespace() {
        let change = format!(in alloc; "UPDATE {table} SET {column} = -32873 WHERE {row}");
        let change = change.expect(rt, "memory");
        assert!(rt; bad_row(rt, alloc, &change) == wanted, "{column}");
    }
}

/// Each column has its least number.
#[test]
fn each_column_has_its_range(rt: HostRuntime) {
    let alloc = rt.alloc();
    let acts = "session clerk request day";
    assert_bounded(&rt, alloc, "acts", acts, "n = 2", (Table::Acts, 2));
    let records =
        "household number kind first corrects unit persons size extremely annual adjusted ttp \
        contract_rent utility assistance event notice done";
    let first = (Table::Records, 1);
    assert_bounded(&rt, alloc, "records", records, "act = 1", first);
    let lines = "place month household for_month first last old new";
    assert_bounded(&rt, alloc, "lines", lines, "place = 2", (Table::Lines, 1));
}

/// A file with one of the three tables alone fails, and a fault is counted.
#[test]
fn one_table_alone_fails(rt: HostRuntime) {
    let alloc = rt.alloc();
    let mut conn = Connection::open_in_memory(alloc).expect(&rt, "memory");
    assert!(rt;
        conn.execute("CREATE TABLE lines (n INTEGER) STRICT", &[])
            .is_ok()
    );
    let mut keeper = SqliteKeeper::adopt(conn);
    match keeper.load(alloc) {
        Loaded::Failed => {}
        _ => panic!(rt; "a file with one table was loaded"),
    }
    assert!(rt; keeper.faults() == 1);
    let_go(keeper.release());
}

fn is_text(bytes: &[u8]) -> bool
    ensures { result ≡ true → IsTrue (is_utf8 bytes.now) }
{
    let Ok(_) = str::from_utf8(bytes) else {
        return false;
    };
    true
}

/// Commits an act that made neither a record nor lines. The flag is up: such a keeper tells no book, so any act may follow.
fn commits(
    rt: &impl Abort,
    alloc: Global,
    keeper: &mut SqliteKeeper<MemStore>,
    act: ActRow,
) -> bool {
    let batch = Batch {
        act,
        made: None,
        lines: Listed::new(Vec::new(alloc)),
    };
    assert!(rt; keeper.is_beside());
    assert!(rt; is_text(batch.act.body.as_bytes()));
    matches!(keeper.commit(alloc, &batch), Committed::Done)
}

/// Whether the flag of a keeper of that file is up after a load.
fn is_flagged(rt: &impl Abort, alloc: Global, conn: Connection<MemStore>) -> bool {
    let mut keeper = SqliteKeeper::adopt(conn);
    assert!(rt; !keeper.is_beside());
    let _rows = tables(rt, alloc, &mut keeper);
    let is_flagged = keeper.is_beside();
    let_go(keeper.release());
    is_flagged
}

/// An empty file has nothing beside its tables, nor has a file of the three tables alone, also once it is opened again.
#[test]
fn nothing_stands_beside_the_tables_of_a_book(rt: HostRuntime) {
    let alloc = rt.alloc();
    let empty = Connection::open_in_memory(alloc).expect(&rt, "memory");
    assert!(rt; !is_flagged(&rt, alloc, empty));
    assert!(rt; !is_flagged(&rt, alloc, file(&rt, alloc)));
    assert!(rt; !is_flagged(&rt, alloc, written(&rt, alloc)));
    let Ok(again) = Connection::over(alloc, written(&rt, alloc).into_store()) else {
        panic!(rt; "not opened again");
    };
    assert!(rt; !is_flagged(&rt, alloc, again));
}

/// A file with a table that refers to none, its index, or a view beside the three tables is a book's all the same.
#[test]
fn others_that_touch_no_table_of_a_book(rt: HostRuntime) {
    let alloc = rt.alloc();
    for other in [
        "CREATE TABLE notes (n INTEGER UNIQUE) STRICT",
        "CREATE VIEW clerks AS SELECT clerk FROM acts",
    ] {
        let mut conn = written(&rt, alloc);
        assert!(rt; conn.execute(other, &[]).is_ok());
        assert!(rt; !is_flagged(&rt, alloc, conn), "{other}");
    }
}

/// A file with an index on a table of a book, or with a table that refers to one, is served, and the flag says what it has.
#[test]
fn file_with_something_beside_is_served_and_flagged(rt: HostRuntime) {
    let alloc = rt.alloc();
    for other in [
        "CREATE TABLE notes (n INTEGER REFERENCES acts (n)) STRICT",
        "CREATE INDEX by_session ON acts (session)",
    ] {
        let mut conn = written(&rt, alloc);
        assert!(rt; conn.execute(other, &[]).is_ok());
        let mut keeper = SqliteKeeper::adopt(conn);
        assert_both(&rt, alloc, &tables(&rt, alloc, &mut keeper));
        assert!(rt;
            commits(&rt, alloc, &mut keeper, batch(&rt, alloc, 3).act),
            "{other}"
        );
        let held = tables(&rt, alloc, &mut keeper);
        assert!(rt; held.acts.len() == 3 && held.acts[2] == batch(&rt, alloc, 3).act);
        assert!(rt; held.records.len() == 1 && held.lines.len() == 2);
        assert!(rt; keeper.is_beside() && keeper.faults() == 0);
        let_go(keeper.release());
    }
}

/// The columns of `lines`, but for the last.
const NINE_COLUMNS: &str =
    "act INTEGER NOT NULL, place INTEGER NOT NULL, month INTEGER NOT NULL, household INTEGER NOT NULL, \
    for_month INTEGER NOT NULL, first INTEGER NOT NULL, last INTEGER NOT NULL, old INTEGER NOT NULL, new INTEGER NOT NULL";

/// A book's file whose table `lines` another hand has made again, with this at its end.
fn remade(rt: &impl Abort, alloc: Global, end: &str) -> Connection<MemStore> {
    let mut conn = file(rt, alloc);
    assert!(rt; conn.execute("DROP TABLE lines", &[]).is_ok());
    let text = format!(in alloc; "CREATE TABLE lines ({NINE_COLUMNS}, {end}").expect(rt, "memory");
    assert!(rt; conn.execute(&text, &[]).is_ok(), "{end}");
    conn
}

/// Three tables of the three names are served, and the flag is up unless they are as the program makes them.
#[test]
fn tables_of_another_make_are_served_and_flagged(rt: HostRuntime) {
    let alloc = rt.alloc();
    for (end, wanted) in [
        (
            "amount INTEGER NOT NULL, PRIMARY KEY (act, place)) STRICT",
            false,
        ),
        (
            "amount INTEGER NOT NULL, PRIMARY KEY (place, act)) STRICT",
            true,
        ),
        ("amount INTEGER NOT NULL, UNIQUE (act, place)) STRICT", true),
        ("amount INTEGER NOT NULL, PRIMARY KEY (act, place))", true),
        ("amount INTEGER, PRIMARY KEY (act, place)) STRICT", true),
        (
            "amount ANY NOT NULL, PRIMARY KEY (act, place)) STRICT",
            true,
        ),
        (
            "amount INTEGER NOT NULL DEFAULT 0, PRIMARY KEY (act, place)) STRICT",
            true,
        ),
        (
            "amount INTEGER NOT NULL CHECK (amount <> 0), PRIMARY KEY (act, place)) STRICT",
            true,
        ),
        (
            "amount INTEGER NOT NULL, note TEXT, PRIMARY KEY (act, place)) STRICT",
            true,
        ),
    ] {
        let conn = remade(&rt, alloc, end);
        assert!(rt; is_flagged(&rt, alloc, conn) == wanted, "{end}");
    }
}
