//! Sessions during which something else happens between two messages.

use crate::sessions::Told;
use http_front::session;
use keeper_core::PlannedKeeper;
use office_io::{Clock, Got, MemorySink, MemorySource, Source};
use shared_desk::{Naming, Pass, SharedDesk};
use std::alloc::Global;
use std::process::Abort;
use std::sync::Wait;

/// What happens between two messages.
pub trait Event {
    fn happen(&mut self);
}

/// A source in memory that gives its first part, has the event happen, and then gives the rest.
#[derive(Drop)]
struct Parted<E: Event> {
    first: MemorySource,
    rest: MemorySource,
    event: E,
    has_happened: bool,
}

impl<E: Event> Source for Parted<E> {
    ghost use Rattle.std.specs.Prelude.{◌+◌, None};

    ghost left = { λ _. None };

    ghost faults = { λ source. source.first.plan.faults + source.rest.plan.faults };

    fn read(&mut self, buffer: &mut [u8]) -> Got {
        match self.first.read(buffer) {
            Got::End => {}
            got => return got,
        }
        if !self.has_happened {
            self.has_happened = true;
            self.event.happen();
        }
        self.rest.read(buffer)
    }
}

fn source(rt: &impl Abort, alloc: Global, text: &str) -> MemorySource {
    let bytes = text.as_bytes().to_vec(alloc).expect(rt, "memory");
    MemorySource::new(bytes, Vec::new(alloc), usize::MAX)
}

/// Serves one session of the pass over both texts, with the event between them.
pub fn served_in_parts<B: Naming, E: Event + Drop, C: Clock, R: Abort + Wait>(
    rt: &R,
    alloc: Global,
    desk: &SharedDesk<PlannedKeeper, B>,
    pass: &mut Pass<B>,
    texts: (&str, &str),
    event: E,
    clock: &C,
) -> Told {
    let mut source = Parted {
        first: source(rt, alloc, texts.0),
        rest: source(rt, alloc, texts.1),
        event,
        has_happened: false,
    };
    let mut sink = MemorySink::new(alloc, 4_096, Vec::new(alloc), usize::MAX).expect(rt, "memory");
    let end = session(rt, alloc, desk, pass, &mut source, &mut sink, clock);
    Told {
        end,
        bytes: sink.into_bytes(),
    }
}
