//! A shared desk as an HTTP session works with it.

ghost use Rattle.std.specs.Prelude.{◌≡◌, IfSome};
ghost use Rattle.desk_history.specs.Seen.{point_of};
ghost use Rattle.http_session.specs.Completeness.{Completes};
ghost use Rattle.http_session.specs.Sessions.{Ends, EndCause};
ghost use Rattle.shared_desk.specs.Calls.{Further};
ghost use Rattle.http_front.specs.Passes.{AnswersPass, NeverSilent};

use crate::passing::answer_for_pass;
use http_messages::Message;
use http_responses::Reply;
use http_routes::Routes;
use http_session::{Desk, SessionEnd, session_over};
use keeper_core::Keeper;
use office_io::{Clock, Sink, Source};
use shared_desk::{Naming, Pass, SharedDesk};
use std::alloc::Global;
use std::sync::Wait;

/// A desk that several clerks share, as a session with a pass works with it.
#[derive(Drop)]
pub(crate) struct PassDesk<'a, R, K: Keeper + Drop, B: Naming, C> {
    pub(crate) rt: &'a R,
    pub(crate) routes: &'a Routes,
    pub(crate) desk: &'a SharedDesk<K, B>,
    pub(crate) pass: &'a mut Pass<B>,
    pub(crate) clock: &'a C,
}

impl<'a, R: Wait, K: Keeper + Drop, B: Naming, C: Clock> Desk for PassDesk<'a, R, K, B, C> {
    ghost use Rattle.std.specs.Prelude.{◌≡◌, ⊤};
    ghost use Rattle.desk_history.specs.Seen.{point_of};
    ghost use Rattle.shared_desk.specs.Calls.{Further};
    ghost use Rattle.http_front.specs.Passes.{AnswersPass};
    ghost use Rattle.shared_desk.proofs.Further.{further_stays, further_joins};

    ghost in_order = { λ desk. ⊤ };

    ghost answers = { λ desk message reply desk_now.
        AnswersPass (C.may_show desk.clock.now) desk.pass.now message reply desk_now.pass.now
        × (desk_now.clock.now ≡ desk.clock.now) };

    ghost gives_up = { λ desk message desk_now. ⊥ };

    ghost follows = { λ desk desk_now. Further desk.pass.now desk_now.pass.now × (desk_now.pass.ghost_name ≡ desk.pass.ghost_name)
        × (desk_now.clock.now ≡ desk.clock.now) };

    ghost point = { λ desk. point_of desk.pass.now };

    fn answer(&mut self, alloc: Global, message: &Message) -> Option<Reply> {
        Some(answer_for_pass(
            self.rt,
            alloc,
            self.routes,
            self.desk,
            self.pass,
            self.clock,
            message,
        ))
    }

    fn seen(&self) -> u32 {
        self.pass.seen()
    }

    ghost use Rattle.std.proofs.Common.{refl, ◌∙◌};

    ghost stays = { λ desk. (further_stays desk.pass.now, refl, refl) };

    ghost joins = { λ desk mid desk_now before after.
        (further_joins desk.pass.now mid.pass.now desk_now.pass.now before.0 after.0, after.1 ∙ before.1, after.2 ∙ before.2) };
}

/// A session of a pass, by what is seen of it.
pub(crate) fn serve_pass<'a, R: Wait, K: Keeper + Drop, B: Naming, S: Source, W: Sink, C: Clock>(
    alloc: Global,
    desk: &mut PassDesk<'a, R, K, B, C>,
    source: &mut S,
    sink: &mut W,
) -> SessionEnd
    ensures ends { Ends (AnswersPass (C.may_show desk.old.clock.now)) NeverSilent point_of desk.old.pass.now desk.new.pass.now
        (S.left source.old) (S.left source.new) (W.held sink.old) (W.held sink.new) result }
    ensures complete { IfSome (S.left source.old) (λ input. Completes (AnswersPass (C.may_show desk.old.clock.now)) point_of
        desk.old.pass.now desk.new.pass.now (W.held sink.old) (W.held sink.new) input result) }
    ensures cause { EndCause (S.faults source.old) (S.faults source.new) (W.faults sink.old) (W.faults sink.new) result }
    ensures further { Further desk.old.pass.now desk.new.pass.now }
    ensures pass { desk.new.pass.ghost_name ≡ desk.old.pass.ghost_name }
{
    session_over(alloc, desk, source, sink)
}
