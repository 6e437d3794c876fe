//! A clock that goes on within a batch.

ghost use Rattle.std.specs.Prelude.{◌≤◌};
ghost use Rattle.days_core.specs.Calendar.{last_day};

use crate::runs::ran_by;
use days_core::Day;
use keeper_core::MemoryKeeper;
use office_io::Clock;
use run_harness::without_fault;
use sample_office::{PLAN, RENTS, UNIT, day, written};
use std::alloc::Global;
use std::cell::Cell;
use std::process::Abort;

/// Shows the next day each time that it is asked.
#[derive(Drop)]
struct TurningClock {
    shown: Cell<u32>,
}

impl Clock for TurningClock {
    ghost may_show = { λ clock day. day ≤ last_day };

    fn today(&self) -> Day {
        let number = self.shown.get();
        self.shown.set(number.saturating_add(1));
        Day::from_number(number).unwrap_or(day("2000-01-01"))
    }
}

const REPLIES: &str = "{'act':1,'day':'2024-01-01','made':null}\n\
    {'act':2,'day':'2024-01-02','made':{'unit':1}}\n\
    {'act':1,'day':'2024-01-01','made':null}\n\
    {'act':3,'day':'2024-01-04','made':null}\n";

/// Lines that name no day: three acts, with the first once more as the third.
fn dayless_lines(rt: &impl Abort, alloc: Global) -> Vec<u8> {
    let text = format!(in alloc;
        "{{'clerk':1,'request':1,'act':{PLAN}}}\n{{'clerk':1,'request':2,'act':{UNIT}}}\n\
        {{'clerk':1,'request':1,'act':{PLAN}}}\n{{'clerk':1,'request':3,'act':{RENTS}}}\n"
    );
    let text = text.expect(rt, "memory");
    written(alloc, &text).expect(rt, "memory").into_bytes()
}

// Each act is of the day that the clock shows for its line; a repeat keeps its own.
#[test]
fn a_clock_goes_on_between_lines(rt: HostRuntime) {
    let alloc = rt.alloc();
    let input = dayless_lines(&rt, alloc);
    let clock = TurningClock {
        shown: Cell::new(day("2024-01-01").number()),
    };
    let mut keeper = MemoryKeeper::new(alloc);
    let trial = without_fault("batch");
    let told = ran_by(&rt, alloc, &mut keeper, &clock, &trial, &input);
    assert!(rt; told.is(0, REPLIES));
}
