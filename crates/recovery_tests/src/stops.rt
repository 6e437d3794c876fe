//! Files that are opened again after a stop.

ghost use Rattle.std.specs.Prelude.{◌≡◌, IfSome, IsTrue, true};
ghost use Rattle.std.specs.Str.{is_utf8};
ghost use Rattle.sqlite.specs.Files.{file_state};
ghost use Rattle.book_rows.specs.Book.{Book, IsBefore, book_of};
ghost use Rattle.keeper_sqlite.specs.Told.{Holds};

use book_recovery::{Reopened, commit_and_restart, reopen, restart};
use book_rows::{ActRow, Batch, Tables};
use keeper_core::{Committed, Keeper, Loaded};
use keeper_sqlite::SqliteKeeper;
use plain_data::{Listed, SharedText};
use sample_office::day;
use sqlite::{FileStore, Files, Options};
use sqlite_disk::{Crash, Disk, Fuse, Memory};
use std::alloc::Global;
use std::process::Abort;
use std::str;
use store_write::write_batch;

/// An act of that number, which made no record.
fn act(rt: &impl Abort, alloc: Global, n: u32) -> Batch {
    let body = "{}".as_bytes().to_vec(alloc).expect(rt, "memory");
    Batch {
        act: ActRow {
            n,
            session: 1,
            clerk: 1,
            request: n,
            day: day("2024-01-01"),
            body: SharedText::new(body).expect(rt, "memory"),
        },
        made: None,
        lines: Listed::new(Vec::new(alloc)),
    }
}

fn rows_of(rt: &impl Abort, loaded: Loaded) -> Tables {
    match loaded {
        Loaded::Rows(tables) => tables,
        _ => panic!(rt; "no rows"),
    }
}

/// The keeper of a new file in which two acts are written. This and the next speak of any disk, since a check of a disk's own
/// has all its parts before it.
fn written<D: Disk + Drop>(
    rt: &impl Abort,
    alloc: Global,
    disks: Files<D>,
) -> SqliteKeeper<FileStore<D>> {
    if !disks.may_be_used() {
        panic!(rt; "a disk whose sync failed");
    }
    let Ok(Reopened { keeper, loaded }) = reopen(alloc, disks, Options::new(1)) else {
        panic!(rt; "a file that isn't opened");
    };
    assert!(rt; rows_of(rt, loaded).acts.is_empty());
    let mut conn = keeper.release();
    assert!(rt; write_batch(&mut conn, &act(rt, alloc, 1)).is_ok());
    assert!(rt; write_batch(&mut conn, &act(rt, alloc, 2)).is_ok());
    SqliteKeeper::adopt(conn)
}

/// The rows that stand in the keeper's file after a stop.
fn left<D: Crash + Drop>(
    rt: &impl Abort,
    alloc: Global,
    keeper: SqliteKeeper<FileStore<D>>,
) -> Tables {
    let Ok(Reopened { loaded, .. }) = restart(alloc, keeper, Options::new(1)) else {
        panic!(rt; "a file that isn't opened");
    };
    rows_of(rt, loaded)
}

// What was written stands in the file that is opened again after a stop.
#[test]
fn a_stopped_file_opens_to_its_rows(rt: HostRuntime) {
    let alloc = rt.alloc();
    let disks = Files {
        log: Memory::new(alloc),
        db: Memory::new(alloc),
    };
    let keeper = written(&rt, alloc, disks);
    let tables = left(&rt, alloc, keeper);
    assert!(rt; tables.acts.len() == 2);
    assert!(rt;
        tables.acts[0] == act(&rt, alloc, 1).act && tables.acts[1] == act(&rt, alloc, 2).act
    );
    assert!(rt; tables.records.is_empty() && tables.lines.is_empty());
}

fn is_before(tables: &Tables, n: u32) -> bool
    ensures { result ≡ true → IsBefore (book_of tables.now) n }
{
    tables.acts.iter().all(|act| act.n < n)
        && tables.records.iter().all(|made| made.act < n)
        && tables.lines.iter().all(|line| line.act < n)
}

fn is_text(bytes: &[u8]) -> bool
    ensures { result ≡ true → IsTrue (is_utf8 bytes.now) }
{
    let Ok(_) = str::from_utf8(bytes) else {
        return false;
    };
    true
}

fn rows_now<D: Crash + Drop>(
    alloc: Global,
    keeper: &mut SqliteKeeper<FileStore<D>>,
) -> Option<Tables>
    ensures { IfSome result (λ tables. (book : Book) → Holds (file_state keeper.new.file) keeper.new.is_beside book → book_of tables ≡ book) }
{
    match keeper.load(alloc) {
        Loaded::Rows(tables) => Some(tables),
        _ => None,
    }
}

/// What the commit of an act answers that is the first of a new file, and the rows that stand in the file after a stop. None
/// if the file isn't opened, or not loaded.
fn after_commit<D: Crash + Drop>(
    rt: &impl Abort,
    alloc: Global,
    disks: Files<D>,
) -> Option<(Committed, Tables)> {
    if !disks.may_be_used() {
        panic!(rt; "a disk whose sync failed");
    }
    let Ok(Reopened { mut keeper, .. }) = reopen(alloc, disks, Options::new(1)) else {
        return None;
    };
    let tables = rows_now(alloc, &mut keeper)?;
    let batch = Batch {
        act: act(rt, alloc, 1).act,
        made: None,
        lines: Listed::new(Vec::new(alloc)),
    };
    assert!(rt; is_before(&tables, batch.act.n));
    assert!(rt; is_text(batch.act.body.as_bytes()));
    let (committed, reopened) = commit_and_restart(alloc, keeper, &batch, Options::new(1));
    let Ok(Reopened { loaded, .. }) = reopened else {
        panic!(rt; "a file that isn't opened");
    };
    Some((committed, rows_of(rt, loaded)))
}

fn is_first_act(rt: &impl Abort, alloc: Global, tables: &Tables) -> bool {
    tables.acts.len() == 1
        && tables.acts[0] == act(rt, alloc, 1).act
        && tables.records.is_empty()
        && tables.lines.is_empty()
}

// A commit that is done stands in the file after a stop.
#[test]
fn a_commit_before_a_stop_is_kept(rt: HostRuntime) {
    let alloc = rt.alloc();
    let disks = Files {
        log: Memory::new(alloc),
        db: Memory::new(alloc),
    };
    let Some((committed, tables)) = after_commit(&rt, alloc, disks) else {
        panic!(rt; "a file that isn't opened");
    };
    assert!(rt; matches!(committed, Committed::Done));
    assert!(rt; is_first_act(&rt, alloc, &tables));
}

// A log that fails from some call on: once the file is open, a commit is done and stands in the file, or it isn't done and
// stands there whole or not at all. Both come about.
#[test]
fn a_stop_within_a_commit_leaves_it_or_nothing(rt: HostRuntime) {
    let alloc = rt.alloc();
    let mut was_done = false;
    let mut has_failed = false;
    for calls in 0..120u64 {
        let disks = Files {
            log: Fuse::new(Memory::new(alloc), calls),
            db: Fuse::new(Memory::new(alloc), u64::MAX),
        };
        if let Some((committed, tables)) = after_commit(&rt, alloc, disks) {
            let is_kept = is_first_act(&rt, alloc, &tables);
            if matches!(committed, Committed::Done) {
                assert!(rt; is_kept);
                was_done = true;
            } else {
                assert!(rt; matches!(committed, Committed::Failed));
                assert!(rt; is_kept || tables.acts.is_empty());
                has_failed = true;
            }
        }
    }
    assert!(rt; was_done && has_failed);
}
