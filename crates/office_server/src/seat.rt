//! A worker's seat at the desk.

ghost use Rattle.std.specs.Prelude.{◌≡◌, IfSome};
ghost use mathlib.Core.List.{IsPrefix};

use http_front::session;
use http_front::shared_desk::{Naming, Note, Pass, SharedDesk};
use keeper_core::Keeper;
use link_workers::Seat;
use office_io::{Clock, Sink, Source};
use std::alloc::Global;
use std::sync::Wait;

/// A worker's seat at a desk: its pass, by which it serves link after link.
#[derive(Drop)]
pub(crate) struct ClerkSeat<'a, R, K: Keeper + Drop, B: Naming, C> {
    pub(crate) rt: &'a R,
    pub(crate) desk: &'a SharedDesk<K, B>,
    pub(crate) clock: &'a C,
    pub(crate) pass: Pass<B>,
}

impl<'a, R: Wait, K: Keeper + Drop, B: Naming, C: Clock> Seat for ClerkSeat<'a, R, K, B, C> {
    ghost use Rattle.std.specs.Prelude.{◌≡◌, ⊤, IsSomeAnd};
    ghost use Rattle.shared_desk.specs.Calls.{Further};
    ghost use Rattle.shared_desk.proofs.Further.{further_stays, further_joins};
    ghost use Rattle.http_front.specs.Together.{KnowsBeginning};
    ghost use Rattle.office_server.specs.Links.{IsServed};
    ghost use Rattle.std.proofs.Common.{refl, ◌∙◌};

    /// One note of all passes, once there is one.
    type Log = Option<Note<B>>;

    ghost in_order = { λ seat. ⊤ };

    ghost serves = { λ seat link seat_now. IsServed (C.may_show seat.clock.now) seat.pass seat_now.pass link × (seat_now.clock.now ≡ seat.clock.now) };

    ghost follows = { λ seat seat_now. Further seat.pass seat_now.pass × (seat_now.clock.now ≡ seat.clock.now) };

    ghost knows = { λ log seat. IsSomeAnd log (λ note. KnowsBeginning note.start note.list seat.pass) };

    fn serve<S: Source, W: Sink>(&mut self, alloc: Global, source: &mut S, sink: &mut W) {
        session(
            self.rt,
            alloc,
            self.desk,
            &mut self.pass,
            source,
            sink,
            self.clock,
        );
    }

    fn enter(&mut self, log: &mut Option<Note<B>>) {
        let own = self.desk.note(&mut self.pass);
        *log = Some(with_before(self.desk, log.take(), own));
    }

    ghost stays = { λ seat. (further_stays seat.pass, refl) };

    ghost joins = { λ seat mid seat_now before after. (further_joins seat.pass mid.pass seat_now.pass before.0 after.0, after.1 ∙ before.1) };
}

/// A note of what this one says and the one before, if there is one.
fn with_before<K: Keeper + Drop, B: Naming>(
    desk: &SharedDesk<K, B>,
    before: Option<Note<B>>,
    own: Note<B>,
) -> Note<B>
    ensures own { (own.start ≡ result.start) × IsPrefix own.list result.list }
    ensures before { IfSome before (λ note. (note.start ≡ result.start) × IsPrefix note.list result.list) }
{
    match before {
        Some(before) => desk.merge(before, own),
        None => own,
    }
}
