//! A sink that opens a gate.

use crate::Gate;
use office_io::{MemorySink, Put, Sink};
use std::marker::Model;

/// A sink in memory whose first write opens a gate.
///
/// Contracts see the sink in memory.
#[derive(Drop)]
pub struct GatedSink<'a> {
    sink: MemorySink,
    gate: &'a Gate,
}

impl<'a> Model for GatedSink<'a> {
    ghost use Rattle.office_io.specs.Memory.{Taken};

    ghost Value = { Taken };

    ghost view = { λ sink. sink.sink };
}

impl<'a> GatedSink<'a> {
    ghost use Rattle.std.specs.Prelude.{◌≡◌};

    /// The sink, whose writes open the gate.
    pub fn new(sink: MemorySink, gate: &'a Gate) -> GatedSink<'a>
        ensures { result ≡ sink }
    {
        GatedSink { sink, gate }
    }

    /// What was written.
    pub fn as_bytes(&self) -> &[u8]
        ensures { result.now ≡ self.now.held }
    {
        self.sink.as_bytes()
    }
}

impl<'a> Sink for GatedSink<'a> {
    ghost use Rattle.std.specs.Prelude.{Some};

    ghost held = { λ sink. Some sink.held };

    ghost faults = { λ sink. sink.plan.faults };

    fn write(&mut self, piece: &[u8]) -> Put {
        self.gate.open();
        self.sink.write(piece)
    }
}
