//! Keepers in memory.

ghost use Rattle.std.specs.Prelude.{◌≡◌, ◌<◌, ◌+◌, ℕ, length, slice_index_or, true, IsTrue};
ghost use Rattle.std.specs.Str.{is_utf8};
ghost use Rattle.book_rows.specs.Book.{Book, book_of, IsBatch, IsBefore};
ghost use Rattle.voucher_core.specs.declared.line.Line.{Line};

use book_rows::{ActRow, Batch, Table, Tables};
use keeper_core::{Committed, DamagedKeeper, Keeper, Loaded, MemoryKeeper, PlannedKeeper};
use plain_data::Listed;
use record_history::{Dates, Kind, Record};
use sample_office::{act_row, body, day, line, record};
use std::alloc::Global;
use std::process::Abort;
use std::str;
use voucher_core::Line;

fn act(rt: &impl Abort, alloc: Global, n: u32, text: &str) -> ActRow {
    act_row(n, 1, n, body(alloc, text).expect(rt, "memory"))
}

fn certified() -> Record {
    record(1, 1, 1, Kind::IC, day("2024-01-01"))
}

fn taken_back() -> Line {
    let mut line = line(1, 2);
    line.amount = -50;
    line
}

fn is_before(tables: &Tables, n: u32) -> bool
    ensures { result ≡ true → IsBefore (book_of tables.now) n }
{
    tables.acts.iter().all(|act| act.n < n)
        && tables.records.iter().all(|made| made.act < n)
        && tables.lines.iter().all(|line| line.act < n)
}

fn are_places(lines: &[Line]) -> bool
    ensures { result ≡ true → (place : ℕ) (d : Line) → place < length lines.now → (slice_index_or lines.now place d).place ≡ place + 1 }
{
    for index in 0..lines.len() {
        if lines[index].place as usize != index + 1 {
            return false;
        }
    }
    true
}

fn is_batch(batch: &Batch) -> bool
    ensures { result ≡ true → IsBatch batch.now }
{
    let n = batch.act.n;
    let lines = batch.lines.as_slice();
    let is_made = match &batch.made {
        Some(made) => made.act == n,
        None => true,
    };
    is_made && lines.iter().all(|line| line.act == n) && are_places(lines)
}

fn loaded<K: Keeper>(rt: &impl Abort, alloc: Global, keeper: &mut K) -> Tables
    ensures { (book : Book) → K.holds keeper.new book → book_of result ≡ book }
{
    match keeper.load(alloc) {
        Loaded::Rows(tables) => tables,
        _ => panic!(rt; "no rows"),
    }
}

fn is_text(bytes: &[u8]) -> bool
    ensures { result ≡ true → IsTrue (is_utf8 bytes.now) }
{
    let Ok(_) = str::from_utf8(bytes) else {
        return false;
    };
    true
}

// Loads, and commits a batch that may follow what was loaded.
fn commit_next<K: Keeper>(
    rt: &impl Abort,
    alloc: Global,
    keeper: &mut K,
    batch: &Batch,
) -> Committed {
    let tables = loaded(rt, alloc, keeper);
    assert!(rt; is_batch(batch));
    assert!(rt; is_before(&tables, batch.act.n));
    assert!(rt; is_text(batch.act.body.as_bytes()));
    keeper.commit(alloc, batch)
}

const CLOSE: &str = "{\"kind\":\"close\",\"month\":\"2024-01\"}";

const REMOVE: &str = "{\"applicant\":1,\"kind\":\"remove\"}";

/// An act with a record and lines, or a second one with neither.
fn batch(rt: &impl Abort, alloc: Global, n: u32) -> Batch {
    if n == 1 {
        let lines = [line(1, 1), taken_back()]
            .to_vec(alloc)
            .expect(rt, "memory");
        Batch {
            act: act(rt, alloc, 1, CLOSE),
            made: Some(certified()),
            lines: Listed::new(lines),
        }
    } else {
        Batch {
            act: act(rt, alloc, 2, REMOVE),
            made: None,
            lines: Listed::new(Vec::new(alloc)),
        }
    }
}

/// The rows of neither of the two, of the first, or of both.
fn rows(rt: &impl Abort, alloc: Global, batches: u32) -> Tables {
    let mut rows = Tables::new(alloc);
    if batches > 0 {
        rows.acts
            .push(act(rt, alloc, 1, CLOSE))
            .expect(rt, "memory");
        let held = certified();
        // The check of the move below refuses a type that the function doesn't name, as Option and Dates.
        let _dates: Option<Dates> = held.dates;
        rows.records.push(held).expect(rt, "memory");
        rows.lines.push(line(1, 1)).expect(rt, "memory");
        rows.lines.push(taken_back()).expect(rt, "memory");
    }
    if batches > 1 {
        rows.acts
            .push(act(rt, alloc, 2, REMOVE))
            .expect(rt, "memory");
    }
    rows
}

fn are_rows(rt: &impl Abort, alloc: Global, tables: &Tables, batches: u32) -> bool {
    let rows = rows(rt, alloc, batches);
    tables.acts == rows.acts && tables.records == rows.records && tables.lines == rows.lines
}

/// Loads, and compares.
fn holds<K: Keeper>(rt: &impl Abort, alloc: Global, keeper: &mut K, batches: u32) -> bool {
    let tables = loaded(rt, alloc, keeper);
    are_rows(rt, alloc, &tables, batches)
}

/// Commits the batch of that number, and says whether it did.
fn commits<K: Keeper>(rt: &impl Abort, alloc: Global, keeper: &mut K, n: u32) -> Committed {
    let batch = batch(rt, alloc, n);
    commit_next(rt, alloc, keeper, &batch)
}

fn may_cross_threads<K: Keeper + Send + Drop>(_keeper: K) {}

#[test]
fn keeps_what_was_committed(rt: HostRuntime) {
    let alloc = rt.alloc();
    let mut keeper = MemoryKeeper::new(alloc);
    assert!(rt; holds(&rt, alloc, &mut keeper, 0));
    assert!(rt; commits(&rt, alloc, &mut keeper, 1) == Committed::Done);
    assert!(rt; holds(&rt, alloc, &mut keeper, 1));
    assert!(rt; commits(&rt, alloc, &mut keeper, 2) == Committed::Done);
    assert!(rt; holds(&rt, alloc, &mut keeper, 2));
    assert!(rt; keeper.faults() == 0);
    gives_its_tables(&rt, alloc, keeper);
}

fn gives_its_tables(rt: &impl Abort, alloc: Global, keeper: MemoryKeeper) {
    let keeper = MemoryKeeper::with(keeper.into_tables());
    assert!(rt; are_rows(rt, alloc, keeper.tables(), 2));
    may_cross_threads(keeper);
    may_cross_threads(PlannedKeeper::new(alloc, Vec::new(alloc)));
    may_cross_threads(DamagedKeeper::new(Table::Acts, 1));
}

// The calls are a load and a commit of the first batch, then those of the second, and once more of what failed.
#[test]
fn fails_by_its_plan(rt: HostRuntime) {
    fails_at(&rt, rt.alloc(), 1, 1);
    fails_at(&rt, rt.alloc(), 3, 2);
}

/// At that call the batch of that number isn't kept, and the next time it is.
fn fails_at(rt: &impl Abort, alloc: Global, failing: u64, n: u32)
    requires { 0 < n }
{
    let calls = [failing].to_vec(alloc).expect(rt, "memory");
    let mut keeper = PlannedKeeper::new(alloc, calls);
    if n > 1 {
        assert!(rt; commits(rt, alloc, &mut keeper, 1) == Committed::Done);
    }
    assert!(rt; commits(rt, alloc, &mut keeper, n) == Committed::Failed);
    assert!(rt; keeper.faults() == 1);
    assert!(rt; are_rows(rt, alloc, keeper.tables(), n - 1), "at {failing}");
    assert!(rt; commits(rt, alloc, &mut keeper, n) == Committed::Done);
    assert!(rt; keeper.faults() == 1);
    assert!(rt;
        are_rows(rt, alloc, &keeper.into_tables(), n),
        "at {failing}"
    );
}

#[test]
fn a_failed_load_leaves_the_rows(rt: HostRuntime) {
    let alloc = rt.alloc();
    let calls = [0u64, 1].to_vec(alloc).expect(&rt, "memory");
    let mut keeper = PlannedKeeper::with(rows(&rt, alloc, 1), calls);
    assert!(rt; matches!(keeper.load(alloc), Loaded::Failed));
    assert!(rt; keeper.faults() == 1);
    assert!(rt; matches!(keeper.load(alloc), Loaded::Failed));
    assert!(rt; keeper.faults() == 2);
    assert!(rt; holds(&rt, alloc, &mut keeper, 1));
    assert!(rt; keeper.faults() == 2);
}

#[test]
fn tells_its_bad_row(rt: HostRuntime) {
    let mut keeper = DamagedKeeper::new(Table::Records, 3);
    let Loaded::BadRow { table, act } = keeper.load(rt.alloc()) else {
        panic!(rt; "no bad row");
    };
    assert!(rt; table == Table::Records);
    assert!(rt; act == 3);
}
