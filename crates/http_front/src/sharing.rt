//! A session: the messages of one connection, answered in their order.

ghost use Rattle.std.specs.Prelude.{◌≡◌, IfSome};
ghost use Rattle.desk_history.specs.Seen.{point_of};
ghost use Rattle.http_session.specs.Completeness.{Completes};
ghost use Rattle.http_session.specs.Sessions.{Ends, EndCause};
ghost use Rattle.shared_desk.specs.Calls.{Further};
ghost use Rattle.http_front.specs.Passes.{AnswersPass, NeverSilent};

use crate::pass_desk::{PassDesk, serve_pass};
use http_routes::Routes;
use http_session::SessionEnd;
use keeper_core::Keeper;
use office_io::{Clock, Sink, Source};
use shared_desk::{Naming, Pass, SharedDesk};
use std::alloc::Global;
use std::sync::Wait;

/// Serves the messages of a source, one after another, by a desk that others share and a pass of it.
///
/// The desk is locked only while it decides a call or answers a question: never while the session reads or writes.
pub fn session<R: Wait, K: Keeper + Drop, B: Naming, S: Source, W: Sink, C: Clock>(
    rt: &R,
    alloc: Global,
    desk: &SharedDesk<K, B>,
    pass: &mut Pass<B>,
    source: &mut S,
    sink: &mut W,
    clock: &C,
) -> SessionEnd
    ensures ends { Ends (AnswersPass (C.may_show clock.now)) NeverSilent point_of pass.old pass.new
        (S.left source.old) (S.left source.new) (W.held sink.old) (W.held sink.new) result }
    ensures complete { IfSome (S.left source.old) (λ input. Completes (AnswersPass (C.may_show clock.now)) point_of
        pass.old pass.new (W.held sink.old) (W.held sink.new) input result) }
    ensures cause { EndCause (S.faults source.old) (S.faults source.new) (W.faults sink.old) (W.faults sink.new) result }
    ensures further { Further pass.old pass.new }
{
    match Routes::new(alloc) {
        Ok(routes) => {
            let mut lent = PassDesk {
                rt,
                routes: &routes,
                desk,
                pass,
                clock,
            };
            serve_pass(alloc, &mut lent, source, sink)
        }
        Err(_) => SessionEnd::NoMemory,
    }
}
