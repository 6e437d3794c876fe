//! One message is served.

ghost use Rattle.std.specs.Prelude.{◌≡◌, ◌<◌};
ghost use Rattle.http_session.specs.Replies.{is_last, most, refusal_of};
ghost use Rattle.http_session.specs.Turns.{Refuses, RefusesCause, Serves, ServesCause};

use crate::{Desk, SessionEnd};
use http_heads::Fault;
use http_messages::Message;
use http_responses::{Refusal, Reply, write_response};
use office_io::Sink;
use std::alloc::Global;

/// The most responses of a session.
pub(crate) const MOST_RESPONSES: u32 = 10_000;

/// What came of a message.
#[derive(Clone, Copy, Debug)]
pub(crate) enum Served {
    /// It has its response, and the session goes on.
    Open,
    /// It has its response, and asked for the close.
    Closed,
    /// A write of its response failed.
    Unwritten,
    /// The desk had no memory for a response.
    NoMemory,
}

/// Answers a message behind `before` others.
pub(crate) fn serve<D: Desk, W: Sink>(
    alloc: Global,
    desk: &mut D,
    sink: &mut W,
    message: &Message,
    before: u32,
) -> Served
    requires few { before < most }
    requires in_order { D.in_order desk.old }
    ensures in_order { D.in_order desk.new }
    ensures follows { D.follows desk.old desk.new }
    ensures serves { Serves D.answers D.gives_up before message.now desk.old desk.new
        (W.held sink.old) (W.held sink.new) result }
    ensures cause { ServesCause (W.faults sink.old) (W.faults sink.new) result }
{
    let Some(reply) = desk.answer(alloc, message) else {
        return Served::NoMemory;
    };
    if !write_response(sink, &reply, is_last(before, message)) {
        return Served::Unwritten;
    }
    if message.asks_close {
        Served::Closed
    } else {
        Served::Open
    }
}

/// Whether no response follows that to a message behind `before` others.
fn is_last(before: u32, message: &Message) -> bool
    requires { before < most }
    ensures { result ≡ is_last before message.now }
{
    message.asks_close || before + 1 == MOST_RESPONSES
}

/// Tells that no message begins here.
pub(crate) fn refuse<W: Sink>(sink: &mut W, why: Fault, point: u32) -> SessionEnd
    ensures refuses { Refuses why point (W.held sink.old) (W.held sink.new) result }
    ensures cause { RefusesCause (W.faults sink.old) (W.faults sink.new) result }
{
    let reply = Reply::refused(refusal_of(why), point);
    if !write_response(sink, &reply, true) {
        return SessionEnd::WriteFault;
    }
    SessionEnd::Refused {
        status: reply.status.code(),
    }
}

fn refusal_of(why: Fault) -> Refusal
    ensures { result ≡ refusal_of why }
{
    match why {
        Fault::BadHead => Refusal::BadHead,
        Fault::HeadTooLong => Refusal::HeadTooLong,
        Fault::Coding => Refusal::Coding,
        Fault::BadLength => Refusal::BadLength,
        Fault::BodyTooLong => Refusal::BodyTooLong,
    }
}
