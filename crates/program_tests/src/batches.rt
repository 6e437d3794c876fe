//! The program's batches.

use crate::runs::{lines, ran};
use book_rows::{Table, Tables};
use keeper_core::{DamagedKeeper, MemoryKeeper, PlannedKeeper};
use run_harness::{Told, Trial, without_fault};
use sample_office::{CLOSE_JANUARY, PLAN, RENTS, START, UNIT, written};
use std::alloc::Global;
use std::process::Abort;

/// The plan, a unit, rents, a household of one of 70, and the closing of January 2024.
const MONTH: [&str; 5] = [PLAN, UNIT, RENTS, START, CLOSE_JANUARY];

const REPLIES: &str = "{'act':1,'day':'2024-01-01','made':null}\n\
    {'act':2,'day':'2024-01-01','made':{'unit':1}}\n\
    {'act':3,'day':'2024-01-01','made':null}\n\
    {'act':4,'day':'2024-01-01','made':{'assistance':548,'household':1,'record':1,'reimbursement':0,'tenant_rent':152,'ttp':212}}\n\
    {'act':5,'day':'2024-01-01','made':{'amount':548,'lines':1,'month':'2024-01'}}\n";

const BATCH: Trial = Trial {
    words: "batch",
    unread: None,
    unwritten: None,
    at_once: 700,
};

/// The lines of the month.
fn month(rt: &impl Abort, alloc: Global) -> Vec<u8> {
    lines(rt, alloc, "2024-01-01", 1, &MONTH)
}

#[test]
fn answers_a_month(rt: HostRuntime) {
    let alloc = rt.alloc();
    let mut keeper = MemoryKeeper::new(alloc);
    let told = ran(&rt, alloc, &mut keeper, &BATCH, &month(&rt, alloc));
    assert!(rt; told.is(0, REPLIES));
    assert!(rt; keeper.tables().acts.len() == 5);
}

/// What is answered to the input on an empty book.
fn answered_alone(rt: &impl Abort, alloc: Global, input: &[u8]) -> Told {
    ran(rt, alloc, &mut MemoryKeeper::new(alloc), &BATCH, input)
}

// A bad line is answered in its place, empty ones aren't, and the last needs no end.
#[test]
fn answers_each_line_in_its_place(rt: HostRuntime) {
    let alloc = rt.alloc();
    for (text, replies) in [
        ("", ""),
        ("\n\r\n\n", ""),
        (" \n", "{'refused':{'kind':'Form','path':''}}\n"),
        (
            "{'ask':{'kind':'due','day':'2024-02-30'}}\n\n{'ask':{'kind':'paid','household':1,'month':'2024-01'}}",
            "{'refused':{'kind':'Form','path':'ask.day'}}\n{'refused':{'id':1,'kind':'NoSuch','number':5,'what':'household'}}\n",
        ),
    ] {
        let input = written(alloc, text).expect(&rt, "memory");
        assert!(rt; answered_alone(&rt, alloc, input.as_bytes()).is(0, replies));
    }
}

// A line may have 16,384 bytes and no more; what stands before a longer one was answered.
#[test]
fn ends_at_a_long_line(rt: HostRuntime) {
    let alloc = rt.alloc();
    for (length, ended, count) in [(16_384, 0, 2), (16_385, 9, 1)] {
        let mut input = lines(&rt, alloc, "2024-01-01", 1, &[PLAN]);
        let whole = input.len() + length;
        input.resize(whole, b' ').expect(&rt, "memory");
        assert!(rt; answered_alone(&rt, alloc, &input).has_lines(ended, count));
    }
}

// What the keeper doesn't keep isn't acknowledged.
#[test]
fn ends_where_the_keeper_fails(rt: HostRuntime) {
    let alloc = rt.alloc();
    for call in 0..5u64 {
        let failing = [call].to_vec(alloc).expect(&rt, "memory");
        let mut keeper = PlannedKeeper::new(alloc, failing);
        let told = ran(&rt, alloc, &mut keeper, &BATCH, &month(&rt, alloc));
        let count = call.saturating_sub(1) as usize;
        assert!(rt; told.has_lines(5, count));
        assert!(rt; keeper.tables().acts.len() == count);
    }
}

// Each read may fail, and what is kept is what was answered.
#[test]
fn keeps_what_it_answers(rt: HostRuntime) {
    let alloc = rt.alloc();
    for call in 0..3u64 {
        let mut keeper = MemoryKeeper::new(alloc);
        let trial = Trial {
            unread: Some(call),
            ..BATCH
        };
        let told = ran(&rt, alloc, &mut keeper, &trial, &month(&rt, alloc));
        let kept = keeper.tables().acts.len();
        assert!(rt; told.has_lines(3, kept), "read {call}");
    }
}

// Each write may fail, and what was written is the beginning of the replies.
#[test]
fn writes_the_beginning_of_its_replies(rt: HostRuntime) {
    let alloc = rt.alloc();
    for call in 0..10u64 {
        let trial = Trial {
            unwritten: Some(call),
            at_once: 40,
            ..BATCH
        };
        let mut keeper = MemoryKeeper::new(alloc);
        let told = ran(&rt, alloc, &mut keeper, &trial, &month(&rt, alloc));
        assert!(rt; told.begins(4, REPLIES), "write {call}");
    }
}

/// How many lines have their end among the first so many of these bytes.
fn ended(bytes: &[u8], count: u64) -> usize {
    let read = bytes.iter().take(count as usize);
    read.filter(|byte| **byte == b'\n').count()
}

// By one byte a read: however late one fails, what is kept is the acts of the lines whose end was read, and each was answered.
#[test]
fn keeps_the_lines_that_it_read(rt: HostRuntime) {
    let alloc = rt.alloc();
    let input = lines(&rt, alloc, "2024-01-01", 1, &[PLAN, UNIT, RENTS, START]);
    for call in 0..=input.len() as u64 {
        let mut keeper = MemoryKeeper::new(alloc);
        let trial = Trial {
            unread: Some(call),
            at_once: 1,
            ..BATCH
        };
        let told = ran(&rt, alloc, &mut keeper, &trial, &input);
        let whole = ended(&input, call);
        assert!(rt; told.has_lines(3, whole), "read {call}");
        assert!(rt; keeper.tables().acts.len() == whole, "read {call}");
    }
}

// By one byte a write: however late one fails, what is kept is the acts whose replies are whole, and the one in work.
#[test]
fn keeps_the_act_that_it_tells(rt: HostRuntime) {
    let alloc = rt.alloc();
    let input = month(&rt, alloc);
    for call in 0..REPLIES.len() as u64 {
        let mut keeper = MemoryKeeper::new(alloc);
        let trial = Trial {
            unwritten: Some(call),
            at_once: 1,
            ..BATCH
        };
        let told = ran(&rt, alloc, &mut keeper, &trial, &input);
        assert!(rt; told.begins(4, REPLIES), "write {call}");
        assert!(rt; told.text.len() as u64 == call, "write {call}");
        let whole = ended(told.text.as_bytes(), call);
        assert!(rt;
            keeper.tables().acts.len() == whole.saturating_add(1),
            "write {call}"
        );
    }
}

/// The tables of a month, but with a line for 549 in place of 548.
fn changed_tables(rt: &impl Abort, alloc: Global) -> Tables {
    let mut keeper = MemoryKeeper::new(alloc);
    ran(rt, alloc, &mut keeper, &BATCH, &month(rt, alloc));
    let mut tables = keeper.into_tables();
    if let Some(line) = tables.lines.first_mut() {
        line.amount = 549;
    }
    tables
}

// A book that isn't an office's is named by its first fault.
#[test]
fn names_where_a_book_goes_wrong(rt: HostRuntime) {
    let alloc = rt.alloc();
    let mut keeper = MemoryKeeper::with(changed_tables(&rt, alloc));
    let told = ran(&rt, alloc, &mut keeper, &without_fault("batch"), b"");
    assert!(rt; told.is(6, "bad book: lines 5\n"));
}

// So is one with a bad row.
#[test]
fn names_a_bad_row(rt: HostRuntime) {
    let alloc = rt.alloc();
    let mut keeper = DamagedKeeper::new(Table::Records, 3);
    let told = ran(&rt, alloc, &mut keeper, &BATCH, &month(&rt, alloc));
    assert!(rt; told.is(6, "bad book: records 3\n"));
}
