//! Two links of which each waits for the other.

use crate::serving::{RAISED, small_office};
use gated_links::{Gate, GatedSink, GatedSource, gated_link};
use office_io::{FixedClock, MemorySink};
use office_links::{Link, MemoryListener};
use office_server::run_serve;
use sample_office::{INTERIM, day, post, written};
use std::alloc::Global;
use std::process::Abort;
use std::sync::Wait;
use std::thread::Threads;
use std::time::Clock;

/// Whether some link that was given back holds bytes that end so, with ' for ".
fn is_written(
    rt: &impl Abort,
    alloc: Global,
    links: &[Link<GatedSource<'_, impl Clock>, GatedSink<'_>>],
    wanted: &str,
) -> bool {
    let wanted = written(alloc, wanted).expect(rt, "memory");
    links
        .iter()
        .any(|link| link.sink.as_bytes().ends_with(wanted.as_bytes()))
}

/// A listener of two links: one gives the act, its second half once the other was answered, and the other asks.
fn two_links<'a, R: Abort + Clock>(
    rt: &'a R,
    alloc: Global,
    act: &str,
    gates: &'a [Gate; 3],
) -> MemoryListener<GatedSource<'a, R>, GatedSink<'a>> {
    let [answered, open, last] = gates;
    let first = act.get(..40).expect(rt, "a first part");
    let rest = act.get(40..).expect(rt, "a second part");
    let ask = "GET /households/1 HTTP/1.1\r\n\r\n";
    let mut links = Vec::new(alloc);
    links
        .push(gated_link(rt, alloc, (first, rest), 4_096, answered, last).expect(rt, "memory"))
        .expect(rt, "memory");
    links
        .push(gated_link(rt, alloc, (ask, ""), 4_096, open, answered).expect(rt, "memory"))
        .expect(rt, "memory");
    MemoryListener::new(alloc, links, Vec::new(alloc)).expect(rt, "memory")
}

/// The listener once two workers have served its links.
fn served_by_two<'a, R: Abort + Clock + Threads + Wait + Sync>(
    rt: &R,
    alloc: Global,
    listener: MemoryListener<GatedSource<'a, R>, GatedSink<'a>>,
) -> MemoryListener<GatedSource<'a, R>, GatedSink<'a>> {
    let mut sink = MemorySink::new(alloc, 40, Vec::new(alloc), 40).expect(rt, "memory");
    let clock = FixedClock::new(day("2024-02-01"));
    let keeper = small_office(rt, alloc);
    let served = run_serve(rt, alloc, 2, listener, &mut sink, &clock, keeper);
    assert!(rt; served.status.number() == 0 && sink.as_bytes() == b"book 5\n".as_slice());
    served.listener
}

// The first link gives the second half of its act once the second link was answered, so one worker alone would wait in vain.
#[test]
fn two_links_are_served_at_once(rt: HostRuntime) {
    let alloc = rt.alloc();
    let gates = [Gate::new(), Gate::new(), Gate::new()];
    gates[1].open();
    let act = post(alloc, 50, INTERIM).expect(&rt, "memory");
    let listener = served_by_two(&rt, alloc, two_links(&rt, alloc, &act, &gates));
    let links = listener.given_back();
    assert!(rt; links.len() == 2);
    assert!(rt; is_written(&rt, alloc, links, RAISED));
    assert!(rt; is_written(&rt, alloc, links, "'newest':1}"));
}
