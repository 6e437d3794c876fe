//! What was known at each act.

use record_history::{History, Kind, Record, Run};
use sample_office::{day, history_of, record};
use std::alloc::Global;
use std::process::Abort;

/// A record's number, act, kind and first day, and the number of the one that it corrects, or 0.
type Told = (u32, u32, Kind, &'static str, u32);

fn told(told: Told) -> Record {
    let (number, act, kind, from, corrects) = told;
    let mut held = record(1, number, act, kind, day(from));
    held.corrects = corrects;
    held
}

fn number_of(held: Option<&Record>) -> u32 {
    match held {
        Some(held) => held.number,
        None => 0,
    }
}

// An interim of 2024-03-01 is made at act 10, and at act 11 it is corrected to begin a month later.
const CORRECTED: [Told; 3] = [
    (1, 4, Kind::IC, "2024-01-01", 0),
    (2, 10, Kind::IR, "2024-03-01", 0),
    (3, 11, Kind::IR, "2024-04-01", 2),
];

#[test]
fn tells_what_was_known_at_each_act(rt: HostRuntime) {
    let records = CORRECTED.map(|record| told(record));
    let history = history_of(rt.alloc(), &records).expect(&rt, "a history");
    tells_what_is_in_force(&rt, &history);
    tells_what_there_is(&rt, &history);
    tells_its_runs(&rt, rt.alloc(), &history);
}

fn tells_what_is_in_force(rt: &impl Abort, history: &History) {
    let march = day("2024-03-15");
    assert!(rt; number_of(history.in_force_as_of(1, march, 10)) == 2);
    assert!(rt; number_of(history.in_force_as_of(1, march, 11)) == 1);
    assert!(rt; number_of(history.in_force(1, day("2024-04-01"))) == 3);
    assert!(rt; number_of(history.in_force(1, day("2023-12-31"))) == 0);
}

fn tells_what_there_is(rt: &impl Abort, history: &History) {
    assert!(rt; number_of(history.record_at(1, 2)) == 2);
    assert!(rt; number_of(history.record_at(2, 2)) == 0);
    assert!(rt; history.households() == 1);
    assert!(rt; history.records(1).len() == 3);
    assert!(rt; history.records(2).len() == 0);
    assert!(rt; history.live(1, 2, 10));
    assert!(rt; !history.live(1, 2, 11));
}

fn tells_its_runs(rt: &impl Abort, alloc: Global, history: &History) {
    let first = day("2023-12-30");
    let runs = history.runs(alloc, 1, first, day("2024-06-30"), 11);
    let wanted = [
        run("2023-12-30", "2023-12-31", 0),
        run("2024-01-01", "2024-03-31", 1),
        run("2024-04-01", "2024-06-30", 3),
    ];
    assert!(rt; runs.expect(rt, "memory").as_slice() == wanted.as_slice());
}

fn run(first: &str, last: &str, number: u32) -> Run {
    Run {
        first: day(first),
        last: day(last),
        number,
    }
}

// Of two records of one day the greater number counts, and withdrawing it leaves corrected what it corrected.
const WITHDRAWN: [Told; 4] = [
    (1, 1, Kind::MI, "2024-01-01", 0),
    (2, 2, Kind::GR, "2024-01-01", 0),
    (3, 3, Kind::GR, "2024-01-01", 2),
    (4, 4, Kind::WD, "2024-01-01", 3),
];

#[test]
fn a_withdrawal_brings_nothing_back(rt: HostRuntime) {
    let records = WITHDRAWN.map(|record| told(record));
    let history = history_of(rt.alloc(), &records).expect(&rt, "a history");
    let june = day("2024-06-01");
    assert!(rt; number_of(history.in_force_as_of(1, june, 1)) == 1);
    assert!(rt; number_of(history.in_force_as_of(1, june, 2)) == 2);
    assert!(rt; number_of(history.in_force_as_of(1, june, 3)) == 3);
    assert!(rt; number_of(history.in_force_as_of(1, june, 4)) == 1);
    assert!(rt; !history.live(1, 4, 4));
}
