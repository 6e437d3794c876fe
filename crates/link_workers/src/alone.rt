//! One worker alone.

ghost use Rattle.std.specs.Prelude.{◌≡◌, ◌<◌, true, false, IfSome, Some};
ghost use Rattle.office_io.specs.Outside.{Faulted};
ghost use Rattle.office_links.specs.Links.{Standing, after_giving_back, standing_by};
ghost use Rattle.link_workers.specs.Links.{IsLogged, IsServedFrom, KnowsStill, ServesLinks, TellsBack};

use crate::Seat;
use office_links::{Accepted, Listener};
use std::alloc::Global;

/// Serves link after link from one seat, and gives each back before the next one is taken, when the seat has entered what
/// it came to. True says that no link is left, false that an accept failed.
pub(crate) fn serve_links<L: Listener, T: Seat>(
    alloc: Global,
    listener: &mut L,
    seat: &mut T,
    log: &mut T::Log,
) -> bool
    requires in_order { T.in_order seat.old }
    ensures in_order { T.in_order seat.new }
    ensures follows { T.follows seat.old seat.new }
    ensures served { ServesLinks T.serves seat.old seat.new (L.left listener.old) (L.left listener.new)
        (L.links listener.old) (L.links listener.new) }
    ensures given_back { TellsBack (IsLogged (IsServedFrom T.serves T.follows seat.old) (T.knows log.new)) (L.links listener.old) (L.links listener.new) }
    ensures knows_still { KnowsStill (T.knows log.old) (T.knows log.new) }
    ensures all { result ≡ true → (L.left listener.new ≡ 0) × (L.faults listener.new ≡ L.faults listener.old) }
    ensures failed { result ≡ false → (0 < L.left listener.new) × Faulted (L.faults listener.old) (L.faults listener.new) }
{
    loop {
        match listener.accept() {
            Accepted::Link(source, sink) => {
                serve_link(alloc, listener, seat, log, source, sink);
            },
            Accepted::End => return true,
            Accepted::Failed => return false,
        }
    }
}

/// Serves one link, enters what the seat has then come to, and gives the link back.
fn serve_link<L: Listener, T: Seat>(
    alloc: Global,
    listener: &mut L,
    seat: &mut T,
    log: &mut T::Log,
    mut source: L::In,
    mut sink: L::Out,
)
    requires in_order { T.in_order seat.old }
    ensures in_order { T.in_order seat.new }
    ensures follows { T.follows seat.old seat.new }
    ensures served { (given_back : Standing)
        × T.serves seat.old (record { came = standing_by L.In.left L.In.faults L.Out.held L.Out.faults source sink; given_back = given_back }) seat.new
        × IfSome (L.links listener.old) (λ told. L.links listener.new ≡ Some (after_giving_back told given_back)) }
    ensures knows { T.knows log.new seat.new }
    ensures knows_still { KnowsStill (T.knows log.old) (T.knows log.new) }
    ensures left { L.left listener.new ≡ L.left listener.old }
    ensures unfaulted { L.faults listener.new ≡ L.faults listener.old }
{
    seat.serve(alloc, &mut source, &mut sink);
    seat.enter(log);
    listener.done(source, sink);
}
