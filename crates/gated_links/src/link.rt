//! Links with a gate.

ghost use Rattle.std.specs.Prelude.{◌≡◌, Some, IfOk};
ghost use Rattle.office_links.specs.Links.{standing_by};
ghost use Rattle.office_links.specs.Memory.{IsUnused};

use crate::{Gate, GatedSink, GatedSource};
use office_io::{MemorySink, MemorySource};
use office_links::Link;
use plain_data::NoMemory;
use std::alloc::Global;
use std::time::Clock;

/// A source in memory of this text.
fn source(alloc: Global, text: &str) -> Result<MemorySource, NoMemory>
    ensures { IfOk result (λ source. source.plan.faults ≡ 0) }
{
    let bytes = Vec::from_slice(alloc, text.as_bytes())?;
    Ok(MemorySource::new(bytes, Vec::new(alloc), usize::MAX))
}

/// A link that gives one text, and after the gate `waits` the other. It holds so many bytes, and its first write opens the
/// gate `opens`.
pub fn gated_link<'a, R: Clock>(
    rt: &'a R,
    alloc: Global,
    texts: (&str, &str),
    room: usize,
    waits: &'a Gate,
    opens: &'a Gate,
) -> Result<Link<GatedSource<'a, R>, GatedSink<'a>>, NoMemory>
    ensures { IfOk result (λ link. IsUnused (standing_by (λ s. Some s.left) (λ s. s.faults) (λ s. Some s.held) (λ s. s.plan.faults) link.source link.sink)) }
{
    let (first, rest) = texts;
    let sink = MemorySink::new(alloc, room, Vec::new(alloc), usize::MAX)?;
    let first = source(alloc, first)?;
    let rest = source(alloc, rest)?;
    Ok(Link {
        source: GatedSource::new(first, rest, waits, rt),
        sink: GatedSink::new(sink, opens),
    })
}
