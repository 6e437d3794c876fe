//! Runs on a keeper in memory.

use keeper_core::Keeper;
use office_io::Clock;
use run_harness::{Told, Trial};
use std::alloc::Global;
use std::process::Abort;

// The runs of the harness, with ample memory.

pub fn ran<K: Keeper>(
    rt: &impl Abort,
    alloc: Global,
    keeper: &mut K,
    trial: &Trial,
    input: &[u8],
) -> Told {
    run_harness::ran(alloc, keeper, trial, input).expect(rt, "memory")
}

pub fn ran_by<K: Keeper, C: Clock>(
    rt: &impl Abort,
    alloc: Global,
    keeper: &mut K,
    clock: &C,
    trial: &Trial,
    input: &[u8],
) -> Told {
    run_harness::ran_by(alloc, keeper, clock, trial, input).expect(rt, "memory")
}

pub fn lines(rt: &impl Abort, alloc: Global, on: &str, first: u64, acts: &[&str]) -> Vec<u8> {
    run_harness::lines(alloc, on, first, acts).expect(rt, "memory")
}

pub fn act<K: Keeper>(
    rt: &impl Abort,
    alloc: Global,
    keeper: &mut K,
    on: &str,
    first: u64,
    acts: &[&str],
) -> Told {
    run_harness::act(alloc, keeper, on, first, acts).expect(rt, "memory")
}

pub fn five_months<K: Keeper>(rt: &impl Abort, alloc: Global, keeper: &mut K) -> Told {
    run_harness::five_months(alloc, keeper).expect(rt, "memory")
}
