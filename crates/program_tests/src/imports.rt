//! The program's imports.

use crate::runs::{act, ran};
use book_rows::Table;
use keeper_core::{DamagedKeeper, Keeper, MemoryKeeper, PlannedKeeper};
use run_harness::{Told, Trial, without_fault};
use sample_office::PLAN;
use std::alloc::Global;
use std::process::Abort;

const HEADER: &str = "request,name,size,persons,accessible,preferences,annual\n";

/// Two applicants, and a row whose request is no number.
const ROWS: &str = "request,name,size,persons,accessible,preferences,annual\n\
    1,Ben Ochoa,1,1,no,,9600\n\
    2,Cy Long,2,2,yes,1;2,14000\n\
    x,Bad Row,1,1,no,,1\n";

/// The first of them alone.
const ROW: &str = "request,name,size,persons,accessible,preferences,annual\n\
    1,Ben Ochoa,1,1,no,,9600\n";

const REPLIES: &str = "{'act':2,'day':'2024-01-02','made':{'applicant':1}}\n\
    {'act':3,'day':'2024-01-02','made':{'applicant':2}}\n\
    {'refused':{'kind':'Form','path':'row'}}\n";

const OTHER_HEADER: &str = "{'refused':{'kind':'Form','path':'header'}}\n";

/// A keeper of a book that has a plan.
fn planned(rt: &impl Abort, alloc: Global) -> MemoryKeeper {
    let mut keeper = MemoryKeeper::new(alloc);
    act(rt, alloc, &mut keeper, "2024-01-01", 1, &[PLAN]);
    keeper
}

/// What clerk 2's import of the text is answered with.
fn told<K: Keeper>(rt: &impl Abort, alloc: Global, keeper: &mut K, text: &str) -> Told {
    ran(
        rt,
        alloc,
        keeper,
        &without_fault("import 2"),
        text.as_bytes(),
    )
}

// The same applicants once more get the same replies, and are listed once.
#[test]
fn applicants_are_listed_once(rt: HostRuntime) {
    let alloc = rt.alloc();
    let mut keeper = planned(&rt, alloc);
    assert!(rt; told(&rt, alloc, &mut keeper, ROWS).is(0, REPLIES));
    assert!(rt; keeper.tables().acts.len() == 3);
    assert!(rt; told(&rt, alloc, &mut keeper, ROWS).is(0, REPLIES));
    assert!(rt; keeper.tables().acts.len() == 3);
}

// Without a plan an applicant is refused, in the row's place.
#[test]
fn a_refused_row_is_answered_in_its_place(rt: HostRuntime) {
    let alloc = rt.alloc();
    let refused =
        "{'refused':{'kind':'NoPlan','number':2}}\n{'refused':{'kind':'NoPlan','number':2}}\n\
        {'refused':{'kind':'Form','path':'row'}}\n";
    let mut keeper = MemoryKeeper::new(alloc);
    assert!(rt; told(&rt, alloc, &mut keeper, ROWS).is(0, refused));
}

// Clerk 1 gave the plan by request 1.
#[test]
fn a_request_of_another_act_is_refused(rt: HostRuntime) {
    let alloc = rt.alloc();
    let reused = "{'refused':{'act':1,'kind':'RequestReused','number':1}}\n";
    let mut keeper = planned(&rt, alloc);
    let told = ran(
        &rt,
        alloc,
        &mut keeper,
        &without_fault("import 1"),
        ROW.as_bytes(),
    );
    assert!(rt; told.is(0, reused));
}

#[test]
fn another_header_is_refused(rt: HostRuntime) {
    let alloc = rt.alloc();
    for text in ["", "\n\n", "request,name\n", "1,Ben Ochoa,1,1,no,,9600\n"] {
        let mut keeper = planned(&rt, alloc);
        assert!(rt; told(&rt, alloc, &mut keeper, text).is(8, OTHER_HEADER));
        assert!(rt; keeper.tables().acts.len() == 1);
    }
}

// Blank lines are no rows, a quote may stand round a field, and the last row needs no end.
#[test]
fn odd_texts_are_read(rt: HostRuntime) {
    let alloc = rt.alloc();
    for (rows, count, acts) in [
        ("", 0, 1),
        ("\r\n\r\n1,\"Ben Ochoa\",1,1,no,,9600\r\n\r\n", 1, 2),
        ("1,Ben Ochoa,1,1,no,,9600", 1, 2),
        ("1,Ben Ochoa,1,1,no\n2,Cy Long,2,2,yes,1;2,14000\n", 2, 2),
    ] {
        let text = format!(in alloc; "{HEADER}{rows}");
        let text = text.expect(&rt, "memory");
        let mut keeper = planned(&rt, alloc);
        assert!(rt; told(&rt, alloc, &mut keeper, &text).has_lines(0, count));
        assert!(rt; keeper.tables().acts.len() == acts);
    }
}

// One byte more than an import may have: nothing is kept or written.
#[test]
fn a_long_import_is_left(rt: HostRuntime) {
    let alloc = rt.alloc();
    let wide = Trial {
        at_once: 65_536,
        ..without_fault("import 2")
    };
    for (length, status, count, acts) in [(4_194_304, 0, 3, 3), (4_194_305, 9, 0, 1)] {
        let mut input = ROWS.as_bytes().to_vec(alloc).expect(&rt, "memory");
        input.resize(length, b'\n').expect(&rt, "memory");
        let mut keeper = planned(&rt, alloc);
        assert!(rt; ran(&rt, alloc, &mut keeper, &wide, &input).has_lines(status, count));
        assert!(rt; keeper.tables().acts.len() == acts);
    }
}

// A failed read keeps nothing.
#[test]
fn a_failed_read_ends_an_import(rt: HostRuntime) {
    let alloc = rt.alloc();
    for call in 0..4u64 {
        let trial = Trial {
            unread: Some(call),
            ..without_fault("import 2")
        };
        let mut keeper = planned(&rt, alloc);
        let told = ran(&rt, alloc, &mut keeper, &trial, ROWS.as_bytes());
        assert!(rt; told.is(3, ""), "read {call}");
        assert!(rt; keeper.tables().acts.len() == 1);
    }
}

// A failed write leaves the beginning of the replies.
#[test]
fn a_failed_write_ends_an_import(rt: HostRuntime) {
    let alloc = rt.alloc();
    for (call, acts) in [(0u64, 2), (1, 2), (2, 3), (3, 3)] {
        let trial = Trial {
            unwritten: Some(call),
            ..without_fault("import 2")
        };
        let mut keeper = planned(&rt, alloc);
        let told = ran(&rt, alloc, &mut keeper, &trial, ROWS.as_bytes());
        assert!(rt; told.begins(4, REPLIES), "write {call}");
        assert!(rt; keeper.tables().acts.len() == acts);
    }
}

// What the keeper doesn't keep isn't acknowledged.
#[test]
fn an_applicant_that_is_not_kept_is_not_told(rt: HostRuntime) {
    let alloc = rt.alloc();
    // The plan takes a load and a commit, and the import a load and two commits.
    for (call, count, acts) in [(2u64, 0, 1), (3, 0, 1), (4, 1, 2)] {
        let failing = [call].to_vec(alloc).expect(&rt, "memory");
        let mut keeper = PlannedKeeper::new(alloc, failing);
        act(&rt, alloc, &mut keeper, "2024-01-01", 1, &[PLAN]);
        assert!(rt; told(&rt, alloc, &mut keeper, ROWS).has_lines(5, count));
        assert!(rt; keeper.tables().acts.len() == acts);
    }
}

#[test]
fn a_bad_book_takes_nobody_in(rt: HostRuntime) {
    let alloc = rt.alloc();
    let mut keeper = DamagedKeeper::new(Table::Acts, 3);
    assert!(rt; told(&rt, alloc, &mut keeper, ROWS).is(6, "bad book: acts 3\n"));
}
