//! Responses are written.

ghost use Rattle.std.specs.Prelude.{◌≡◌, true, false};
ghost use Rattle.std.specs.Io.KnownBytes.{Appends};
ghost use Rattle.office_io.specs.{Outside.Faulted, Transfer.AppendsPart};
ghost use Rattle.http_responses.specs.Responses.{response_text};

use crate::Reply;
use crate::head::{PACKET, Packet, put, put_head};
use office_io::{Sink, write_whole};

/// Writes the response. False says that a write failed, and then a front of the response was written.
///
/// A response of at most 2,048 bytes is handed to the sink whole, and of a longer one the head and then the body. It
/// takes no memory.
#[tactic(auto, unfolding(crate::specs::Responses::response_text))]
pub fn write_response<W: Sink>(sink: &mut W, reply: &Reply, is_last: bool) -> bool
    ensures whole { result ≡ true → Appends (W.held sink.old) (W.held sink.new) (response_text reply.now is_last) }
    ensures kept { result ≡ true → W.faults sink.new ≡ W.faults sink.old }
    ensures part { result ≡ false → AppendsPart (W.held sink.old) (W.held sink.new) (response_text reply.now is_last) }
    ensures cause { result ≡ false → Faulted (W.faults sink.old) (W.faults sink.new) }
{
    let body = reply.body.as_bytes();
    let mut packet = Packet::new();
    put_head(&mut packet, reply.status, reply.point, body.len(), is_last);
    if body.len() > PACKET - packet.len() {
        return write_whole(sink, packet.as_slice()) && write_whole(sink, body);
    }
    put(&mut packet, body);
    write_whole(sink, packet.as_slice())
}
