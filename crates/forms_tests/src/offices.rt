//! Offices that forms are printed of.

use batch_command::clerk_desk::open_office;
use batch_command::office_core::{Capacity, Office};
use batch_command::{Ending, answer_lines};
use keeper_core::MemoryKeeper;
use office_io::{FixedClock, MemorySink, MemorySource};
use record_history::{MOST_ACTS, MOST_LINES};
use sample_office::day;
use std::alloc::Global;
use std::process::Abort;
use std::test::Fail;

const LARGEST: Capacity = Capacity {
    acts: MOST_ACTS,
    lines: MOST_LINES,
};

/// The office that accepted so many lines, and no other.
pub fn office_after(
    rt: &impl Abort,
    alloc: Global,
    input: Vec<u8>,
    count: usize,
) -> Result<Office, Fail> {
    let mut sink = MemorySink::new(alloc, 9_000, Vec::new(alloc), 700)?;
    let mut source = MemorySource::new(input, Vec::new(alloc), 700);
    let mut keeper = MemoryKeeper::new(alloc);
    let Ok(mut office) = open_office(alloc, &mut keeper, LARGEST) else {
        panic!(rt; "an office");
    };
    let clock = FixedClock::new(day("2024-01-01"));
    let ending = answer_lines(
        alloc,
        &mut office,
        &mut source,
        &mut sink,
        &clock,
        &mut keeper,
    );
    assert!(rt; ending == Ending::Done);
    assert!(rt; office.tables().acts.len() == count);
    Ok(office)
}

/// Lets the office go. All that it frees is in this function's proof, and in no test's.
pub fn let_go(_office: Office) {}
