//! What sessions over HTTP at a desk are given and write.

use http_front::{SessionEnd, session};
use keeper_core::PlannedKeeper;
use office_io::{FixedClock, MemorySink, MemorySource};
use sample_office::{INTERIM, day, post, written};
use shared_desk::{Naming, Pass, SharedDesk};
use std::alloc::Global;
use std::process::Abort;
use std::sync::Wait;

/// The message that asks for the household.
pub const ASK: &str = "GET /households/1 HTTP/1.1\r\n\r\n";

/// The message that posts the interim, with request 50.
pub fn interim(rt: &impl Abort, alloc: Global) -> String {
    post(alloc, 50, INTERIM).expect(rt, "memory")
}

/// The end of the response to it where it is act 5, with ' for ".
pub const CERTIFIED: &str =
    "book: 5\r\ncontent-length: 125\r\ncontent-type: application/json\r\n\r\n\
    {'act':5,'day':'2024-02-01','made':{'assistance':500,'household':1,'record':2,'reimbursement':0,'tenant_rent':200,'ttp':260}}";

/// The end of the response to the question after it, with ' for ".
pub const SEEN: &str = "book: 5\r\ncontent-length: 57\r\ncontent-type: application/json\r\n\r\n\
    {'household':1,'live':[1,2],'name':'Ada Reed','newest':2}";

/// A session's bytes, and the calls of its source and its sink that fail, of which each gives or takes one byte.
#[derive(Clone, Copy)]
pub struct Given<'a> {
    pub bytes: &'a [u8],
    pub unread: Option<u64>,
    pub unwritten: Option<u64>,
}

/// How a session ended, and what it wrote.
#[derive(Drop)]
pub struct Told {
    pub end: SessionEnd,
    pub bytes: Vec<u8>,
}

impl Told {
    pub fn is(&self, end: SessionEnd, bytes: &[u8]) -> bool {
        self.end == end && self.bytes.as_slice() == bytes
    }
}

fn calls(rt: &impl Abort, alloc: Global, failing: Option<u64>) -> Vec<u64> {
    let mut calls = Vec::new(alloc);
    if let Some(call) = failing {
        calls.push(call).expect(rt, "memory");
    }
    calls
}

/// Serves the bytes by the pass on 1 February 2024.
pub fn served<B: Naming, R: Abort + Wait>(
    rt: &R,
    alloc: Global,
    desk: &SharedDesk<PlannedKeeper, B>,
    pass: &mut Pass<B>,
    given: &Given<'_>,
) -> Told {
    let bytes = given.bytes.to_vec(alloc).expect(rt, "memory");
    let mut source = MemorySource::new(bytes, calls(rt, alloc, given.unread), 1);
    let unwritten = calls(rt, alloc, given.unwritten);
    let mut sink = MemorySink::new(alloc, 4_096, unwritten, 1).expect(rt, "memory");
    let clock = FixedClock::new(day("2024-02-01"));
    let end = session(rt, alloc, desk, pass, &mut source, &mut sink, &clock);
    Told {
        end,
        bytes: sink.into_bytes(),
    }
}

/// Whether a session of the pass on 1 February 2024, over all of the text, writes what ends so, with ' for ".
pub fn writes<B: Naming, R: Abort + Wait>(
    rt: &R,
    alloc: Global,
    desk: &SharedDesk<PlannedKeeper, B>,
    pass: &mut Pass<B>,
    text: &str,
    wanted: &str,
) -> bool {
    let given = Given {
        bytes: text.as_bytes(),
        unread: None,
        unwritten: None,
    };
    let told = served(rt, alloc, desk, pass, &given);
    let wanted = written(alloc, wanted).expect(rt, "memory");
    told.end == SessionEnd::Ended && told.bytes.ends_with(wanted.as_bytes())
}
