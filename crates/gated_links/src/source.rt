//! A source that waits at one.

use crate::Gate;
use office_io::{Got, MemorySource, Source};
use std::marker::Model;
use std::time::Clock;

/// A source in memory that gives its first part, and then waits at a gate before it gives the rest.
///
/// Where the gate isn't opened in 10,000 turns of a millisecond, the read is a fault, and the next one waits again.
/// Contracts see the bytes that are left and the faults so far.
#[derive(Drop)]
pub struct GatedSource<'a, C: Clock> {
    first: MemorySource,
    rest: MemorySource,
    gate: &'a Gate,
    clock: &'a C,
    missed: u64,
}

impl<'a, C: Clock> Model for GatedSource<'a, C> {
    ghost use Rattle.std.specs.Prelude.{◌+◌, ◌++◌};
    ghost use Rattle.gated_links.specs.Gated.{Gated};

    ghost Value = { Gated };

    ghost view = { λ source. record {
      left = source.first.left ++ source.rest.left;
      faults = source.first.plan.faults + source.rest.plan.faults + source.missed;
    } };
}

impl<'a, C: Clock> GatedSource<'a, C> {
    ghost use Rattle.std.specs.Prelude.{◌≡◌, ◌+◌, ◌++◌};

    /// A source of both parts, with the gate between them.
    pub fn new(
        first: MemorySource,
        rest: MemorySource,
        gate: &'a Gate,
        clock: &'a C,
    ) -> GatedSource<'a, C>
        ensures { result ≡ record { left = first.left ++ rest.left; faults = first.plan.faults + rest.plan.faults } }
    {
        GatedSource {
            first,
            rest,
            gate,
            clock,
            missed: 0,
        }
    }
}

impl<'a, C: Clock> Source for GatedSource<'a, C> {
    ghost use Rattle.std.specs.Prelude.{Some};

    ghost left = { λ source. Some source.left };

    ghost faults = { λ source. source.faults };

    fn read(&mut self, buffer: &mut [u8]) -> Got {
        match self.first.read(buffer) {
            Got::End => {}
            got => return got,
        }
        if !self.gate.wait(self.clock) {
            self.missed = self.missed.saturating_add(1);
            return Got::Failed;
        }
        self.rest.read(buffer)
    }
}
