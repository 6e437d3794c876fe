//! A desk stopped at each call of its disks.

use crate::six_acts::{Told, Wanted, all_wanted, first_day, next_day, worked_over};
use fused_disks::{Disks, Kept, after_stop, are_frozen, new_disks};
use office_core::office_answers::Reply;
use std::alloc::Global;
use std::process::Abort;
use std::sync::Wait;

/// How many acts were acknowledged. They are the first ones, each with the reply that it has where nothing stops, and the desk
/// left the tables of just these. The next one met a fault of the keeper.
fn acknowledged(rt: &impl Abort, wanted: &[Wanted], told: &Told) -> usize {
    let whole = wanted.last().expect(rt, "all acts");
    let acts = told
        .replies
        .iter()
        .zip(whole.first.replies.iter())
        .filter(|(reply, other)| reply == other)
        .count();
    let accepted = told
        .replies
        .iter()
        .filter(|(_, reply)| matches!(reply, Reply::Accepted(_)))
        .count();
    assert!(rt; accepted == acts);
    if let Some((_, reply)) = told.replies.get(acts) {
        assert!(rt; *reply == Reply::StoreFault);
    }
    assert!(rt;
        wanted
            .get(acts)
            .is_some_and(|wanted| told.has_left(&wanted.first))
    );
    acts
}

/// A stop of the machine once each disk has had so many calls, and how a commit is synced on these.
#[derive(Clone, Copy, Debug)]
struct Stop {
    are_mixing: bool,
    db: u64,
    log: u64,
}

/// Opens a desk on what a stop leaves that keeps such a part, which has the tables of `least` acts, or of one more where that
/// may be, and has the acts done again.
fn comes_back<R: Abort + Wait>(
    rt: &R,
    alloc: Global,
    wanted: &[Wanted],
    stopped: &Disks,
    (least, most): (usize, usize),
    (stop, kept): (Stop, Kept),
) {
    let disks = after_stop(stopped, alloc, kept).expect(rt, "memory");
    let (left, disks) = worked_over(rt, alloc, disks, next_day(), 0);
    let Some(left) = left else {
        panic!(rt; "no desk, {stop:?} {kept:?}");
    };
    let acts = left.tables.acts.len();
    assert!(rt;
        least <= acts && acts <= most,
        "{acts} acts, {stop:?} {kept:?}"
    );
    let wanted = wanted.get(acts).expect(rt, "no more acts");
    assert!(rt;
        left.has_left(&wanted.first),
        "other rows, {stop:?} {kept:?}"
    );
    let disks = after_stop(&disks, alloc, kept).expect(rt, "memory");
    let (again, _) = worked_over(rt, alloc, disks, next_day(), 6);
    assert!(rt;
        again.is_some_and(|again| again.is(&wanted.again)),
        "again, {stop:?} {kept:?}"
    );
}

/// Stops the acts, and looks what is left, whatever part of the unsynced writes is kept. Whether they were stopped.
fn stops_at<R: Abort + Wait>(rt: &R, alloc: Global, wanted: &[Wanted], stop: Stop) -> bool {
    let disks = new_disks(alloc, stop.are_mixing, stop.db, stop.log).expect(rt, "memory");
    let (told, mut disks) = worked_over(rt, alloc, disks, first_day(), 6);
    let were_frozen = are_frozen(&mut disks);
    let bounds = match &told {
        Some(told) => {
            let acts = acknowledged(rt, wanted, told);
            (acts, acts.saturating_add(1))
        }
        None => (0, 0),
    };
    for kept in Kept::EACH {
        comes_back(rt, alloc, wanted, &disks, bounds, (stop, kept));
    }
    were_frozen
}

// What is told in memory: each act is accepted under its number, and one that is there has its first reply.
fn are_repeated(wanted: &Wanted) -> bool {
    let mut number = 0u32;
    for (_, reply) in &wanted.again.replies {
        number = number.saturating_add(1);
        if !matches!(reply, Reply::Accepted(done) if done.act == number) {
            return false;
        }
    }
    wanted
        .first
        .replies
        .iter()
        .zip(wanted.again.replies.iter())
        .all(|((_, first), (_, again))| first == again)
}

/// Stops at each call of the log, and at each of the file, from the making of a new file on.
fn at_each_call<R: Abort + Wait>(rt: &R, alloc: Global, are_mixing: bool) {
    let wanted = all_wanted(rt, alloc);
    assert!(rt; wanted.iter().all(are_repeated));
    let never = Stop {
        are_mixing,
        db: u64::MAX,
        log: u64::MAX,
    };
    for log in 0..5_000u64 {
        if !stops_at(rt, alloc, &wanted, Stop { log, ..never }) {
            break;
        }
    }
    for db in 0..5_000u64 {
        if !stops_at(rt, alloc, &wanted, Stop { db, ..never }) {
            break;
        }
    }
}

// After each stop, a desk is opened on what was synced and on any part of the rest, whose tables are those of the acts that
// were acknowledged, or of these and the next one. The acts are told as ever: those that are there have their first reply, and
// the others are accepted. Most commits are synced once, as in a real file.
#[test]
fn a_desk_stopped_at_each_call(rt: HostRuntime) {
    at_each_call(&rt, rt.alloc(), true);
}

// The same where each commit is synced twice.
#[test]
fn a_desk_stopped_where_commits_sync_twice(rt: HostRuntime) {
    at_each_call(&rt, rt.alloc(), false);
}
