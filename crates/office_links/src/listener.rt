//! What a listener does, and what it tells.

use office_io::{Sink, Source};

/// What an accept gave.
#[derive(Debug, Drop)]
pub enum Accepted<S, W> {
    /// The next link, by its source and its sink.
    Link(S, W),
    /// Nothing, since no link is left.
    End,
    /// Nothing, and a fault was counted.
    Failed,
}

/// Where links come from.
///
/// A listener tells how many links are left to it. It may also tell the links themselves, and those that were given
/// back. It counts its faults, and no accept answers `Failed` with no new fault. The count stops at its last value.
pub trait Listener {
    ghost use Rattle.std.specs.Prelude.{◌≡◌, ℕ, Some, IfSome};
    ghost use Rattle.std.specs.declared.option.Option.{Option};
    ghost use Rattle.office_links.specs.Links.{Links, Fits, Counts, AcceptCause, Accepts, after_giving_back, standing_by};

    type In: Source + Drop;

    type Out: Sink + Drop;

    // How many links are left.
    ghost left: { Self → ℕ };

    // Those links and the ones given back, where the listener tells them.
    ghost links: { Self → Option Links };

    ghost faults: { Self → ℕ };

    /// Gives the next link, and may wait for it.
    fn accept(&mut self) -> Accepted<Self::In, Self::Out>
        ensures count { Counts (left self.old) (left self.new) result }
        ensures fits { IfSome (links self.old) (Fits (left self.old)) }
        ensures links { IfSome (links self.old) (λ told.
            Accepts (standing_by Self.In.left Self.In.faults Self.Out.held Self.Out.faults) told (links self.new) result) }
        ensures cause { AcceptCause (faults self.old) (faults self.new) result };

    /// Ends a served link for its peer, who then comes to the end of what was written. It needs no listener, so it waits
    /// for nobody who waits for the next link.
    fn hang_up(sink: &mut Self::Out)
        ensures held { Self.Out.held sink.new ≡ Self.Out.held sink.old }
        ensures faults { Self.Out.faults sink.new ≡ Self.Out.faults sink.old };

    /// Gives a served link back. A listener that doesn't tell its links, or has no room, drops it.
    fn done(&mut self, source: Self::In, sink: Self::Out)
        ensures count { left self.new ≡ left self.old }
        ensures links { IfSome (links self.old) (λ told. links self.new ≡ Some (after_giving_back told
            (standing_by Self.In.left Self.In.faults Self.Out.held Self.Out.faults source sink))) }
        ensures cause { faults self.new ≡ faults self.old };
}
