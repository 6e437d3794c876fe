//! What a worker serves by.

use office_io::{Sink, Source};
use std::alloc::Global;

/// Who serves a link from a worker's place.
///
/// It says what it made of a link, and what it is afterwards. The seats at one listener have a log, into which each enters
/// what it has come to. One that waits for others holds the handle for that.
pub trait Seat {
    ghost use Rattle.std.specs.Prelude.{◌≡◌};
    ghost use Rattle.office_links.specs.Links.{standing_by};
    ghost use Rattle.link_workers.specs.Links.{KnowsStill, Served};

    /// Where the seats write down what they have come to, one after another.
    type Log;

    // It is as it has to be when it is to serve.
    ghost in_order: { Self → Type 0 };

    // It made this of a link, and such is the seat afterwards.
    ghost serves: { Self → Served → Self → Type 0 };

    // This is the seat after some links.
    ghost follows: { Self → Self → Type 0 };

    // The log says what such a seat has come to.
    ghost knows: { Self.Log → Self → Type 0 };

    /// Serves one link, however that ends.
    fn serve<S: Source, W: Sink>(&mut self, alloc: Global, source: &mut S, sink: &mut W)
        requires in_order { in_order self.old }
        ensures in_order { in_order self.new }
        ensures serves { serves self.old (record {
          came = standing_by S.left S.faults W.held W.faults source.old sink.old;
          given_back = standing_by S.left S.faults W.held W.faults source.new sink.new;
        }) self.new }
        ensures follows { follows self.old self.new };

    /// Enters into the log what it has come to. What the log knew, it knows still.
    fn enter(&mut self, log: &mut Self::Log)
        ensures same { self.new ≡ self.old }
        ensures knows { knows log.new self.old }
        ensures knows_still { KnowsStill (knows log.old) (knows log.new) };

    // After none it is as it was.
    ghost stays: { (seat : Self) → follows seat seat };

    // What follows one that follows it, follows it.
    ghost joins: { (seat mid seat_now : Self) → follows seat mid → follows mid seat_now → follows seat seat_now };
}
