//! Two links at once.

use crate::seat::Echo;
use gated_links::{Gate, gated_link};
use link_workers::serve_all;
use office_links::MemoryListener;
use std::sync::Mutex;

// The first link gives its second part once the second link was written to, so one worker alone would wait in vain.
#[test]
fn two_links_are_served_at_once(rt: HostRuntime) {
    let alloc = rt.alloc();
    let (written, open, last) = (Gate::new(), Gate::new(), Gate::new());
    open.open();
    let mut links = Vec::new(alloc);
    links
        .push(gated_link(&rt, alloc, ("ab", "cd"), 16, &written, &last).expect(&rt, "memory"))
        .expect(&rt, "memory");
    links
        .push(gated_link(&rt, alloc, ("xy", "z"), 16, &open, &written).expect(&rt, "memory"))
        .expect(&rt, "memory");
    let listener = MemoryListener::new(alloc, links, Vec::new(alloc)).expect(&rt, "memory");
    let served = Mutex::new(0);
    let mut seats = [Echo::new(&rt, &served), Echo::new(&rt, &served)];
    let ended = serve_all(&rt, alloc, listener, &mut seats, 0);
    assert!(rt; !ended.failed);
    assert!(rt; ended.listener.given_back().len() == 2);
    for link in ended.listener.given_back() {
        let held = link.sink.as_bytes();
        assert!(rt; held == b"abcd".as_slice() || held == b"xyz".as_slice());
    }
    drop(seats);
    assert!(rt; served.into_inner() == 2);
}
