//! Each link is served once, by however many workers.

ghost use Rattle.std.specs.Prelude.{◌<◌};

use crate::seat::Echo;
use link_workers::serve_all;
use office_io::{MemorySink, MemorySource};
use office_links::{Accepted, Listener, MemoryListener, listener_of_inputs};
use plain_data::Text;
use std::alloc::Global;
use std::process::Abort;
use std::sync::{Mutex, Wait};
use std::thread::Threads;

type InMemory = MemoryListener<MemorySource, MemorySink>;

const TEXTS: [&str; 12] = [
    "a", "bb", "ccc", "dddd", "eeeee", "f", "gg", "hhh", "iiii", "j", "kk", "lll",
];

/// A listener of a link for each of these texts.
fn listener(rt: &impl Abort, alloc: Global, texts: &[&str], failing: &[u64]) -> InMemory {
    let mut inputs = Vec::new(alloc);
    for text in texts {
        let bytes = Vec::from_slice(alloc, text.as_bytes()).expect(rt, "memory");
        inputs.push(Text::new(bytes)).expect(rt, "memory");
    }
    let failing = failing.to_vec(alloc).expect(rt, "memory");
    listener_of_inputs(alloc, inputs, failing, 16).expect(rt, "memory")
}

/// How many of the links given back hold this text.
fn times_held(listener: &InMemory, text: &str) -> u32 {
    let mut times = 0u32;
    for link in listener.given_back() {
        if link.sink.as_bytes() == text.as_bytes() {
            times = times.saturating_add(1);
        }
    }
    times
}

/// What came of a listener that this many workers served.
#[derive(Drop)]
struct Outcome {
    listener: InMemory,
    failed: bool,
    served: u32,
    /// What the log says at the end, and what it should say.
    entered: u32,
    most_given: u32,
}

/// How many links the seat was given that was given the most.
fn most_given<R: Wait>(seats: &[Echo<'_, R>]) -> u32 {
    let mut most = 0;
    for seat in seats {
        if most < seat.given {
            most = seat.given;
        }
    }
    most
}

/// Serves the texts by this many workers. The calls of `accept` with the numbers in `failing` fail.
fn served_by<R: Threads + Wait + Abort + Sync>(
    rt: &R,
    alloc: Global,
    workers: usize,
    failing: &[u64],
) -> Outcome
    requires { 0 < workers }
{
    let served = Mutex::new(0);
    let mut seats = Vec::new(alloc);
    for _ in 0..workers {
        seats.push(Echo::new(rt, &served)).expect(rt, "memory");
    }
    assert!(rt; seats.len() == workers);
    let listener = listener(rt, alloc, &TEXTS, failing);
    let ended = serve_all(rt, alloc, listener, seats.as_mut_slice(), 0);
    let most_given = most_given(&seats);
    drop(seats);
    Outcome {
        listener: ended.listener,
        failed: ended.failed,
        served: served.into_inner(),
        entered: ended.log,
        most_given,
    }
}

/// How many links the listener still gives.
fn left(mut listener: InMemory) -> u32 {
    for count in 0..100 {
        match listener.accept() {
            Accepted::Link(_, _) => {}
            _ => return count,
        }
    }
    100
}

#[test]
fn each_link_is_served_once_and_given_back(rt: HostRuntime) {
    for workers in [1, 2, 8] {
        let outcome = served_by(&rt, rt.alloc(), workers, &[]);
        assert!(rt; !outcome.failed);
        assert!(rt; outcome.served == 12);
        assert!(rt; outcome.listener.given_back().len() == 12);
        for text in &TEXTS {
            assert!(rt; times_held(&outcome.listener, *text) == 1, "{text}");
        }
        assert!(rt; outcome.listener.faults() == 0);
        assert!(rt; left(outcome.listener) == 0);
    }
}

// Twelve links are given to at most eight seats, so one is given two or more.
#[test]
fn the_log_knows_each_seat_at_its_last_link(rt: HostRuntime) {
    for workers in [1, 2, 8] {
        let outcome = served_by(&rt, rt.alloc(), workers, &[]);
        assert!(rt; outcome.entered == outcome.most_given);
        assert!(rt; outcome.entered >= 2);
        assert!(rt; workers > 1 || outcome.entered == 12);
    }
}

// The second accept fails, so one link is served, and no other is taken.
#[test]
fn after_a_failed_accept_no_link_is_taken(rt: HostRuntime) {
    for workers in [1, 2, 8] {
        let outcome = served_by(&rt, rt.alloc(), workers, &[1]);
        assert!(rt; outcome.failed);
        assert!(rt; outcome.served == 1);
        assert!(rt; outcome.listener.given_back().len() == 1);
        assert!(rt; times_held(&outcome.listener, "a") == 1);
        assert!(rt; outcome.listener.faults() == 1);
        assert!(rt; left(outcome.listener) == 11);
    }
}
