//! A session, from its first byte to its end.

ghost use Rattle.std.specs.Prelude.{◌≡◌, [], IfSome};
ghost use Rattle.http_session.specs.Completeness.{Completes};
ghost use Rattle.http_session.specs.Sessions.{Ends, EndCause, IsAsked};

use crate::serve::{MOST_RESPONSES, Served, refuse, serve};
use crate::{Desk, SessionEnd};
use http_messages::{Inbox, Incoming};
use office_io::{Sink, Source};
use std::alloc::Global;

/// Serves the messages of a source, one after another, by the desk.
///
/// No message is read before the one before it has its response, but for what came with the same read. Memory is taken
/// for the inbox, for copies of each message, and by the desk.
pub fn session_over<D: Desk, S: Source, W: Sink>(
    alloc: Global,
    desk: &mut D,
    source: &mut S,
    sink: &mut W,
) -> SessionEnd
    requires in_order { D.in_order desk.old }
    ensures in_order { D.in_order desk.new }
    ensures follows { D.follows desk.old desk.new }
    ensures ends { Ends D.answers D.gives_up D.point desk.old desk.new
        (S.left source.old) (S.left source.new) (W.held sink.old) (W.held sink.new) result }
    ensures asked { IsAsked D.answers D.gives_up desk.old desk.new }
    ensures complete { IfSome (S.left source.old) (λ told.
        Completes D.answers D.point desk.old desk.new (W.held sink.old) (W.held sink.new) told result) }
    ensures cause { EndCause (S.faults source.old) (S.faults source.new)
        (W.faults sink.old) (W.faults sink.new) result }
{
    match Inbox::new(alloc) {
        Ok(mut inbox) => serve_all(alloc, &mut inbox, desk, source, sink),
        Err(_) => SessionEnd::NoMemory,
    }
}

/// The same, with an empty inbox.
fn serve_all<D: Desk, S: Source, W: Sink>(
    alloc: Global,
    inbox: &mut Inbox,
    desk: &mut D,
    source: &mut S,
    sink: &mut W,
) -> SessionEnd
    requires empty { inbox.old ≡ [] }
    requires in_order { D.in_order desk.old }
    ensures in_order { D.in_order desk.new }
    ensures follows { D.follows desk.old desk.new }
    ensures ends { Ends D.answers D.gives_up D.point desk.old desk.new
        (S.left source.old) (S.left source.new) (W.held sink.old) (W.held sink.new) result }
    ensures cause { EndCause (S.faults source.old) (S.faults source.new)
        (W.faults sink.old) (W.faults sink.new) result }
{
    for count in 0..MOST_RESPONSES {
        match inbox.next_message(alloc, source) {
            Incoming::Message(message) => match serve(alloc, desk, sink, &message, count) {
                Served::Open => {}
                Served::Closed => return SessionEnd::Ended,
                Served::Unwritten => return SessionEnd::WriteFault,
                Served::NoMemory => return SessionEnd::NoMemory,
            },
            Incoming::End => return SessionEnd::Ended,
            Incoming::Cut => return SessionEnd::Cut,
            Incoming::Refused(fault) => return refuse(sink, fault, desk.seen()),
            Incoming::Failed => return SessionEnd::ReadFault,
            Incoming::NoMemory => return SessionEnd::NoMemory,
        }
    }
    SessionEnd::Spent
}
