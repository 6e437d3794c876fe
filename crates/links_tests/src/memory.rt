//! Listeners in memory.

use office_io::{Got, MemorySink, MemorySource, Put, Sink, Source};
use office_links::{Accepted, Link, Listener, MemoryListener, listener_of_inputs};
use plain_data::Text;
use std::alloc::Global;
use std::process::Abort;

type InMemory = MemoryListener<MemorySource, MemorySink>;

/// A listener of a link for each of these texts.
fn listener(
    rt: &impl Abort,
    alloc: Global,
    texts: &[&str],
    failing: &[u64],
    room: usize,
) -> InMemory {
    let mut inputs = Vec::new(alloc);
    for text in texts {
        let bytes = Vec::from_slice(alloc, text.as_bytes()).expect(rt, "memory");
        inputs.push(Text::new(bytes)).expect(rt, "memory");
    }
    let failing = failing.to_vec(alloc).expect(rt, "memory");
    listener_of_inputs(alloc, inputs, failing, room).expect(rt, "memory")
}

/// Takes the next link, writes back the first bytes that it brings, and gives it back. It says what came.
fn echoes<L: Listener>(listener: &mut L) -> &'static str {
    match listener.accept() {
        Accepted::Link(mut source, mut sink) => {
            let mut buffer = [0; 8];
            let told = match source.read(&mut buffer) {
                Got::Bytes(count) => written(sink.write(&buffer[..count])),
                Got::End => "nothing",
                Got::Failed => "unread",
            };
            listener.done(source, sink);
            told
        }
        Accepted::End => "end",
        Accepted::Failed => "failed",
    }
}

fn written(put: Put) -> &'static str {
    match put {
        Put::Bytes(_) => "echoed",
        Put::Failed => "unwritten",
    }
}

/// Whether these were written to the links given back, in that order.
fn holds(listener: &InMemory, wanted: &[&str]) -> bool {
    let links = listener.given_back();
    links.len() == wanted.len()
        && links
            .iter()
            .zip(wanted)
            .all(|(link, text)| is_held(link, text))
}

fn is_held(link: &Link<MemorySource, MemorySink>, text: &str) -> bool {
    link.sink.as_bytes() == text.as_bytes()
}

#[test]
fn links_come_in_order_and_then_the_end(rt: HostRuntime) {
    let mut links = listener(&rt, rt.alloc(), &["one", "", "three"], &[], 8);
    assert!(rt; echoes(&mut links) == "echoed");
    assert!(rt; echoes(&mut links) == "nothing");
    assert!(rt; holds(&links, &["one", ""]));
    assert!(rt; echoes(&mut links) == "echoed");
    assert!(rt; echoes(&mut links) == "end");
    assert!(rt; echoes(&mut links) == "end");
    assert!(rt; holds(&links, &["one", "", "three"]));
    assert!(rt; links.faults() == 0);
}

// The last planned call comes where no link is left.
#[test]
fn planned_accepts_fail_and_take_no_link(rt: HostRuntime) {
    let mut links = listener(&rt, rt.alloc(), &["one", "two"], &[1, 2, 4], 8);
    assert!(rt; echoes(&mut links) == "echoed");
    assert!(rt; echoes(&mut links) == "failed");
    assert!(rt; echoes(&mut links) == "failed");
    assert!(rt; links.faults() == 2);
    assert!(rt; echoes(&mut links) == "echoed");
    assert!(rt; echoes(&mut links) == "end");
    assert!(rt; links.faults() == 2);
    assert!(rt; holds(&links, &["one", "two"]));
}

#[test]
fn writes_into_full_sinks_are_faults_of_the_link(rt: HostRuntime) {
    let mut links = listener(&rt, rt.alloc(), &["one"], &[], 0);
    assert!(rt; echoes(&mut links) == "unwritten");
    assert!(rt; holds(&links, &[""]));
    assert!(rt;
        links
            .given_back()
            .iter()
            .all(|link| link.sink.faults() == 1)
    );
    assert!(rt; links.faults() == 0);
}

// There is room for one link, and it is promised to the link that is left.
#[test]
fn links_past_the_room_are_dropped(rt: HostRuntime) {
    let mut links = listener(&rt, rt.alloc(), &["one"], &[], 8);
    give(&rt, rt.alloc(), &mut links);
    assert!(rt; holds(&links, &[]));
    assert!(rt; echoes(&mut links) == "echoed");
    give(&rt, rt.alloc(), &mut links);
    assert!(rt; holds(&links, &["one"]));
}

/// Gives back a link that it never took.
fn give(rt: &impl Abort, alloc: Global, links: &mut InMemory) {
    let source = MemorySource::new(Vec::new(alloc), Vec::new(alloc), 1);
    let sink = MemorySink::new(alloc, 1, Vec::new(alloc), 1).expect(rt, "memory");
    links.done(source, sink);
}
