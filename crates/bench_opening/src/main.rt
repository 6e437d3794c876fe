//! What opening a book takes: answers the lines of a batch on a book in memory, and then opens the office on that book
//! so many times. Prints the replies, and how many acts the book has.
#![tactic(auto)]

use days_core::{Day, FIRST_OFFICE_DAY};
use keeper_core::MemoryKeeper;
use office_io::{FixedClock, StreamSink, StreamSource};
use office_prog::clerk_desk::open_office;
use office_prog::office_core::Capacity;
use office_prog::run;
use record_history::{MOST_ACTS, MOST_LINES};
use std::alloc::{AllocError, Global};
use std::process::ExitCode;
use std::{env, io};

/// How much the book may hold: as much as that of the program.
const LARGEST: Capacity = Capacity {
    acts: MOST_ACTS,
    lines: MOST_LINES,
};

fn main(rt: HostRuntime) -> ExitCode {
    match run_and_open(&rt) {
        Ok(true) => ExitCode::SUCCESS,
        _ => ExitCode::FAILURE,
    }
}

fn run_and_open(rt: &HostRuntime) -> io::Result<bool> {
    let words: Vec<String> = env::args(rt)?.skip(1).collect(rt.alloc())?;
    let [times] = words.as_slice() else {
        return Ok(false);
    };
    let Ok(times) = times.parse::<u32>() else {
        return Ok(false);
    };
    let mut keeper = MemoryKeeper::new(rt.alloc());
    if answer(rt, &mut keeper)? != 0 {
        return Ok(false);
    }
    let Some(acts) = open_again(rt.alloc(), &mut keeper, times) else {
        return Ok(false);
    };
    println!(rt; "{acts} acts")?;
    Ok(true)
}

/// Answers the lines of standard input, and gives the status.
fn answer(rt: &HostRuntime, keeper: &mut MemoryKeeper) -> Result<u8, AllocError> {
    let alloc = rt.alloc();
    let words = ["batch".to_string(alloc)?];
    let mut source = StreamSource::new(rt.stdin());
    let mut sink = StreamSink::new(rt.stdout());
    // Each line tells its own day, so any clock will do.
    let clock = FixedClock::new(Day::from_number(FIRST_OFFICE_DAY).unwrap());
    Ok(run(alloc, &words, &mut source, &mut sink, &clock, keeper).number())
}

/// Opens the office on the keeper's book so many times, and gives how many acts the book has.
fn open_again(alloc: Global, keeper: &mut MemoryKeeper, times: u32) -> Option<usize> {
    for _ in 0..times {
        open_office(alloc, keeper, LARGEST).ok()?;
    }
    Some(keeper.tables().acts.len())
}
