//! A seat that echoes what comes.

use link_workers::Seat;
use office_io::{Got, Put, Sink, Source};
use std::alloc::Global;
use std::sync::{Mutex, Wait};

/// A seat that writes back what comes, and counts the links that it served to their end, together with other seats.
///
/// Into the log goes the most that one seat was given.
#[derive(Drop)]
pub struct Echo<'a, R: Wait> {
    rt: &'a R,
    served: &'a Mutex<u32>,
    /// How many links this seat was given.
    pub given: u32,
}

/// The most pieces of a link that are written back.
const MOST_PIECES: u32 = 1000;

impl<'a, R: Wait> Echo<'a, R> {
    /// A seat with this count.
    pub fn new(rt: &'a R, served: &'a Mutex<u32>) -> Echo<'a, R> {
        Echo {
            rt,
            served,
            given: 0,
        }
    }
}

impl<'a, R: Wait> Seat for Echo<'a, R> {
    ghost use Rattle.std.specs.Prelude.{⊤, ◌≤◌};
    ghost use Rattle.std.proofs.Common.{rules};

    type Log = u32;

    ghost in_order = { λ seat. ⊤ };

    ghost serves = { λ seat link seat_now. ⊤ };

    ghost follows = { λ seat seat_now. ⊤ };

    ghost knows = { λ log seat. seat.given ≤ log };

    fn serve<S: Source, W: Sink>(&mut self, _alloc: Global, source: &mut S, sink: &mut W) {
        self.given = self.given.saturating_add(1);
        if echoed_whole(source, sink) {
            let mut served = self.served.lock(self.rt);
            *served = served.saturating_add(1);
        }
    }

    fn enter(&mut self, log: &mut u32) {
        if *log < self.given {
            *log = self.given;
        }
    }

    ghost stays = { Prim.search rules };

    ghost joins = { Prim.search rules };
}

/// Writes back all that comes, and says whether that went well.
fn echoed_whole<S: Source, W: Sink>(source: &mut S, sink: &mut W) -> bool {
    for _ in 0..MOST_PIECES {
        match echoed(source, sink) {
            Got::Bytes(_) => {}
            Got::End => return true,
            Got::Failed => return false,
        }
    }
    false
}

/// Reads a piece, and writes it back.
fn echoed<S: Source, W: Sink>(source: &mut S, sink: &mut W) -> Got {
    let mut buffer = [0; 64];
    match source.read(&mut buffer) {
        Got::Bytes(count) => match sink.write(&buffer[..count]) {
            Put::Bytes(_) => Got::Bytes(count),
            Put::Failed => Got::Failed,
        },
        got => got,
    }
}
