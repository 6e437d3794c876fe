//! Listeners of given texts, for tests.

ghost use Rattle.std.specs.Prelude.{◌≡◌, [], length, map, IfOk};
ghost use Rattle.office_links.specs.Memory.{link_of};

use crate::{Link, MemoryListener};
use office_io::{MemorySink, MemorySource};
use plain_data::{NoMemory, Text};
use std::alloc::Global;

/// A listener whose links bring these bytes, each to a sink that has so much room.
///
/// The calls of `accept` with the numbers in `failing` fail, counted from 0, but where no link is left. No read fails,
/// and no write but into a full sink.
pub fn listener_of_inputs(
    alloc: Global,
    inputs: Vec<Text>,
    failing: Vec<u64>,
    room: usize,
) -> Result<MemoryListener<MemorySource, MemorySink>, NoMemory>
    ensures { IfOk result (λ listener. listener ≡ record {
      left = map (link_of room) inputs.items;
      given_back = [];
      room = length inputs.items;
      failing = failing.items;
      calls = 0;
      faults = 0;
    }) }
{
    let mut links = Vec::with_capacity(alloc, inputs.len())?;
    for input in inputs {
        links.push(link_of(alloc, input, room)?)?;
    }
    MemoryListener::new(alloc, links, failing)
}

fn link_of(
    alloc: Global,
    input: Text,
    room: usize,
) -> Result<Link<MemorySource, MemorySink>, NoMemory>
    ensures { IfOk result (λ link. link ≡ link_of room input) }
{
    Ok(Link {
        source: MemorySource::new(input.into_bytes(), Vec::new(alloc), usize::MAX),
        sink: MemorySink::new(alloc, room, Vec::new(alloc), usize::MAX)?,
    })
}
