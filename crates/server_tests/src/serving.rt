//! Servers that tests run, and what they told.

ghost use Rattle.std.specs.Prelude.{◌≤◌};

use keeper_core::{Keeper, MemoryKeeper};
use office_io::{FixedClock, MemorySink, MemorySource};
use office_links::{Link, MemoryListener, listener_of_inputs};
use office_server::run_serve;
use plain_data::Text;
use sample_office::{day, opening, written};
use std::alloc::Global;
use std::process::Abort;
use std::sync::Wait;
use std::thread::Threads;

pub type Links = MemoryListener<MemorySource, MemorySink>;

/// What a server wrote and handed back, and its status.
#[derive(Drop)]
pub struct Told<K> {
    pub status: u8,
    pub line: String,
    pub links: Links,
    pub keeper: K,
}

impl<K> Told<K> {
    pub fn is(&self, status: u8, line: &str) -> bool {
        self.status == status && self.line.as_str() == line
    }
}

/// The reply to the interim where it is act 5.
pub const RAISED: &str =
    "{'act':5,'day':'2024-02-01','made':{'assistance':500,'household':1,'record':2,'reimbursement':0,'tenant_rent':200,'ttp':260}}";

/// A listener of a link for each of these texts, whose sink has so much room.
pub fn links(
    rt: &impl Abort,
    alloc: Global,
    texts: &[&str],
    failing: &[u64],
    room: usize,
) -> Links {
    let mut inputs = Vec::new(alloc);
    for text in texts {
        let bytes = Vec::from_slice(alloc, text.as_bytes()).expect(rt, "memory");
        inputs.push(Text::new(bytes)).expect(rt, "memory");
    }
    let failing = failing.to_vec(alloc).expect(rt, "memory");
    listener_of_inputs(alloc, inputs, failing, room).expect(rt, "memory")
}

/// Serves the links by one worker on the keeper's book on 2 January 2024, into a sink with so much room.
pub fn serve<R: Abort + Threads + Wait + Sync, K: Keeper + Drop + Send>(
    rt: &R,
    alloc: Global,
    links: Links,
    keeper: K,
    room: usize,
) -> Told<K> {
    serve_by(rt, alloc, 1, links, keeper, room)
}

/// The same, by so many workers.
pub fn serve_by<R: Abort + Threads + Wait + Sync, K: Keeper + Drop + Send>(
    rt: &R,
    alloc: Global,
    workers: u32,
    links: Links,
    keeper: K,
    room: usize,
) -> Told<K>
    requires { (1 ≤ workers) × (workers ≤ 32) }
{
    let mut sink = MemorySink::new(alloc, room, Vec::new(alloc), 40).expect(rt, "memory");
    let clock = FixedClock::new(day("2024-01-02"));
    let served = run_serve(rt, alloc, workers, links, &mut sink, &clock, keeper);
    Told {
        status: served.status.number(),
        line: String::from_utf8(sink.into_bytes()).expect(rt, "no text"),
        links: served.listener,
        keeper: served.keeper,
    }
}

/// A keeper of the book of four acts that one link posts: a plan, a unit, rents and a household of one of 70.
pub fn small_office<R: Abort + Threads + Wait + Sync>(rt: &R, alloc: Global) -> MemoryKeeper {
    let text = opening(alloc).expect(rt, "memory");
    let first = links(rt, alloc, &[text.as_str()], &[], 4_096);
    let told = serve(rt, alloc, first, MemoryKeeper::new(alloc), 40);
    assert!(rt; told.is(0, "book 4\n"));
    told.keeper
}

/// Whether so many links were given back.
pub fn has_given_back(links: &Links, count: usize) -> bool {
    links.given_back().len() == count
}

/// Whether what was written to the link of that place among those given back ends so, with ' for ".
pub fn ends(rt: &impl Abort, alloc: Global, links: &Links, place: usize, wanted: &str) -> bool {
    let wanted = written(alloc, wanted).expect(rt, "memory");
    match links.given_back().get(place) {
        Some(link) => holds_last(link, wanted.as_bytes()),
        None => false,
    }
}

fn holds_last(link: &Link<MemorySource, MemorySink>, wanted: &[u8]) -> bool {
    link.sink.as_bytes().ends_with(wanted)
}
