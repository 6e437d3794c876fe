//! The program stopped at each call of its disks.

use fused_disks::{Disks, Kept, after_stop, new_disks};
use keeper_core::{Keeper, Loaded};
use keeper_sqlite::SqliteKeeper;
use run_harness::{act, five_months};
use sqlite::{Alter, Connection, Options};
use sqlite_disk::{Disk, Files};
use std::alloc::Global;
use std::process::Abort;

const MOVE_OUT: &str = "{'kind':'move_out','household':1,'seen':1,'last':'2024-04-10'}";

const CLOSE_JUNE: &str = "{'kind':'close','month':'2024-06'}";

/// What is seen of a book: how many acts were acknowledged and whether all were, or how many acts and lines it holds.
#[derive(Clone, Copy)]
struct Seen {
    acts: usize,
    lines: usize,
    is_whole: bool,
}

const NONE: Seen = Seen {
    acts: 0,
    lines: 0,
    is_whole: false,
};

/// Has eleven acts done: nine, a move-out in April, and the closing of June, which adjusts April and May.
fn eleven_acts<K: Keeper>(rt: &impl Abort, alloc: Global, keeper: &mut K) -> Seen {
    let first = five_months(alloc, keeper).expect(rt, "memory");
    if first.status != 0 {
        return Seen {
            acts: first.text.lines().count(),
            ..NONE
        };
    }
    let later = act(alloc, keeper, "2024-07-01", 10, &[MOVE_OUT, CLOSE_JUNE]).expect(rt, "memory");
    Seen {
        acts: later.text.lines().count().saturating_add(9),
        is_whole: later.status == 0,
        ..NONE
    }
}

/// How many acts and lines the keeper holds.
fn rows_in<K: Keeper>(rt: &impl Abort, alloc: Global, keeper: &mut K) -> Seen {
    match keeper.load(alloc) {
        Loaded::Rows(tables) => Seen {
            acts: tables.acts.len(),
            lines: tables.lines.len(),
            ..NONE
        },
        _ => panic!(rt; "no rows"),
    }
}

/// What is seen on a connection where the eleven acts are done, or only looked for, and its store afterwards. Both this and
/// the next speak of any store or disk, since a check of a file's own has all its parts before it.
fn tried_on<S: Alter + Drop>(
    rt: &impl Abort,
    alloc: Global,
    conn: Connection<S>,
    are_done: bool,
) -> (Seen, S) {
    let mut keeper = SqliteKeeper::adopt(conn);
    let seen = if are_done {
        eleven_acts(rt, alloc, &mut keeper)
    } else {
        rows_in(rt, alloc, &mut keeper)
    };
    assert!(rt; !keeper.is_beside(), "tables that aren't a book's own");
    (seen, keeper.release().into_store())
}

/// The same on disks, and the disks afterwards. Where the acts are to be done, these may not be opened.
fn tried<D: Disk + Drop>(
    rt: &impl Abort,
    alloc: Global,
    disks: Files<D>,
    are_done: bool,
) -> (Seen, Files<D>) {
    if !disks.may_be_used() {
        panic!(rt; "a disk whose sync failed");
    }
    match Connection::open_files(alloc, disks, Options::new(1)) {
        Ok(conn) => {
            let (seen, store) = tried_on(rt, alloc, conn, are_done);
            (seen, store.close())
        }
        Err((_, left)) => {
            assert!(rt; are_done, "a file that isn't opened");
            (NONE, left.into_files())
        }
    }
}

/// How many lines the closings among so many of the eleven acts have: one for each month until May, and June's adjust two.
fn lines_by(acts: usize) -> usize {
    match acts {
        11 => 7,
        _ => acts.saturating_sub(4).min(5),
    }
}

/// Looks what a stop leaves that keeps such a part, and has the acts done again.
fn comes_back(rt: &impl Abort, alloc: Global, told: Seen, stopped: &Disks, kept: Kept, at: &str) {
    let disks = after_stop(stopped, alloc, kept).expect(rt, "memory");
    let (Seen { acts, lines, .. }, disks) = tried(rt, alloc, disks, false);
    assert!(rt;
        (acts == told.acts || acts == told.acts.saturating_add(1)) && lines == lines_by(acts),
        "{acts} acts and {lines} lines for {}, stopped at {at}, {kept:?}",
        told.acts
    );
    let disks = after_stop(&disks, alloc, kept).expect(rt, "memory");
    let (again, _) = tried(rt, alloc, disks, true);
    assert!(rt;
        again.is_whole && again.acts == 11,
        "again, stopped at {at}, {kept:?}"
    );
}

/// Stops the acts after so many calls of each disk, and looks what is left, whatever part of the unsynced writes is kept.
/// Whether they weren't stopped.
fn stops_at(rt: &impl Abort, alloc: Global, db: u64, log: u64) -> bool {
    let disks = new_disks(alloc, true, db, log).expect(rt, "memory");
    let (told, disks) = tried(rt, alloc, disks, true);
    let at = format!(in alloc; "{db} and {log}").expect(rt, "memory");
    for kept in Kept::EACH {
        comes_back(rt, alloc, told, &disks, kept, &at);
    }
    told.is_whole
}

// At each call of the log, and at each of the file, from the making of a new file on: what is there after the stop, whatever
// part of the unsynced writes it kept, is the acts that were told, or these and one more, with their lines, and the acts are
// told as ever.
#[test]
fn stopped_at_each_call(rt: HostRuntime) {
    let alloc = rt.alloc();
    for log in 0..5_000u64 {
        if stops_at(&rt, alloc, u64::MAX, log) {
            break;
        }
    }
    for db in 0..5_000u64 {
        if stops_at(&rt, alloc, db, u64::MAX) {
            break;
        }
    }
}
