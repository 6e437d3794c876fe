//! What lies behind the lock of the listener.

ghost use Rattle.std.specs.Prelude.{◌≡◌, ◌<◌, ◌≤◌, true, false, IfSome, Contains, map};
ghost use Rattle.office_io.specs.Outside.{Faulted};
ghost use Rattle.office_links.specs.Links.{Standing, standing_by, unused};
ghost use Rattle.link_workers.specs.Links.{IsLogged, TellsBack};

use crate::Seat;
use office_links::{Accepted, Listener};
use std::marker::{Brand, Model, PhantomData};

/// How a listener was when its workers began, and what they may make of its links.
pub(crate) trait Start<T> {
    ghost use Rattle.std.specs.Prelude.{ℕ};
    ghost use Rattle.std.specs.declared.option.Option.{Option};
    ghost use Rattle.office_links.specs.Links.{Links};
    ghost use Rattle.link_workers.specs.Links.{Served};

    ghost left: { ℕ };

    ghost faults: { ℕ };

    ghost links: { Option Links };

    // What was made of a link that is given back, by a seat that is such afterwards.
    ghost is_made: { Served → T → Type 0 };
}

impl<T> Start<T> for Brand {
    ghost use Rattle.std.specs.Prelude.{⊤, None};

    ghost left = { 0 };

    ghost faults = { 0 };

    ghost links = { None };

    ghost is_made = { λ link seat_now. ⊤ };
}

/// What lies behind the lock: the listener, the log of the seats, and whether an accept has failed. Contracts see whether
/// one has.
pub(crate) struct Entry<L: Listener, T: Seat, B: Start<T>> {
    listener: L,
    log: T::Log,
    failed: bool,
    start: PhantomData<B>,
}

impl<L: Listener, T: Seat, B: Start<T>> Model for Entry<L, T, B> {
    ghost use Rattle.std.specs.Prelude.{◌≡◌, ◌<◌, ◌≤◌, true, false, Bool};
    ghost use Rattle.office_io.specs.Outside.{Faulted};
    ghost use Rattle.link_workers.specs.Links.{IsLogged, TellsBack};

    ghost Value = { Bool };

    ghost view = { λ entry. entry.failed };

    // Each link that was given back so far was served in one of the ways that the start allows, and the log knows the seat as
    // it then was.
    ghost invariant = { λ entry. (L.left entry.listener ≤ B.left)
        × (entry.failed ≡ false → L.faults entry.listener ≡ B.faults)
        × (entry.failed ≡ true → (0 < L.left entry.listener) × Faulted B.faults (L.faults entry.listener))
        × TellsBack (IsLogged B.is_made (T.knows entry.log)) B.links (L.links entry.listener) };
}

impl<L: Listener, T: Seat, B: Start<T>> Entry<L, T, B> {
    pub(crate) fn new(listener: L, log: T::Log) -> Entry<L, T, B>
        requires left { L.left listener ≤ B.left }
        requires faults { L.faults listener ≡ B.faults }
        requires links { L.links listener ≡ B.links }
    {
        Entry {
            listener,
            log,
            failed: false,
            start: PhantomData,
        }
    }

    /// The next link, but after a failed accept none.
    pub(crate) fn next(&mut self) -> Option<(L::In, L::Out)>
        ensures came { IfSome result (λ link. IfSome B.links (λ told. Contains (map unused told.left)
            (standing_by L.In.left L.In.faults L.Out.held L.Out.faults link.0 link.1))) }
    {
        if self.failed {
            return None;
        }
        match self.listener.accept() {
            Accepted::Link(source, sink) => Some((source, sink)),
            Accepted::End => None,
            Accepted::Failed => {
                self.failed = true;
                None
            }
        }
    }

    /// Gives a served link back: one that came from here, and of which that was made. The seat first enters what it came to.
    pub(crate) fn done(&mut self, seat: &mut T, source: L::In, sink: L::Out)
        requires served { (came : Standing) × IfSome B.links (λ told. Contains (map unused told.left) came)
            × B.is_made (record { came = came; given_back = standing_by L.In.left L.In.faults L.Out.held L.Out.faults source sink }) seat.old }
        ensures same { seat.new ≡ seat.old }
    {
        seat.enter(&mut self.log);
        self.listener.done(source, sink);
    }

    /// The listener, whether an accept has failed, and the log.
    pub(crate) fn into_parts(self) -> (L, bool, T::Log)
        ensures fewer { L.left result.0 ≤ B.left }
        ensures unfailed { result.1 ≡ false → L.faults result.0 ≡ B.faults }
        ensures fails { result.1 ≡ true → (0 < L.left result.0) × Faulted B.faults (L.faults result.0) }
        ensures given_back { TellsBack (IsLogged B.is_made (T.knows result.2)) B.links (L.links result.0) }
    {
        let Entry {
            listener,
            log,
            failed,
            start: _,
        } = self;
        (listener, failed, log)
    }
}
