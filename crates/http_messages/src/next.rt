//! The next message.

ghost use Rattle.std.specs.Prelude.{◌≡◌, ◌+◌, ◌≤◌, length, drop, Ok, IfOk};
ghost use Rattle.http_heads.specs.Looks.{IsFoundIn};
ghost use Rattle.http_messages.specs.Messages.{IsMessage};
ghost use Rattle.http_messages.specs.Incoming.{Comes, IncomingCause};
ghost use Rattle.http_messages.specs.Reads.{BodyComes, HeadComes, HeadCause, MoreCause};

use crate::buffer::{Buffer, More};
use crate::{Incoming, Message};
use http_heads::{Fault, FoundHead, HeadReader, Look};
use office_io::Source;
use plain_data::{NoMemory, Text};
use std::alloc::Global;

/// The most bytes of a head.
const HEAD_LIMIT: usize = 16_384;

/// What came of reading a head.
#[derive(Debug, Drop)]
pub(crate) enum HeadCame {
    Head(FoundHead),
    /// What never becomes a head.
    Hopeless,
    /// No head in as many bytes as one may have.
    TooLong,
    /// The source is at its end, and more bytes might have made a head.
    End,
    /// A read failed.
    Failed,
}

/// The next message of the source, behind the bytes that are held.
pub(crate) fn next_of<S: Source>(
    alloc: Global,
    held: &mut Buffer,
    heads: &mut HeadReader,
    source: &mut S,
) -> Incoming
    ensures comes { Comes held.old held.new (S.left source.old) (S.left source.new) result }
    ensures cause { IncomingCause (S.faults source.old) (S.faults source.new) result }
{
    match read_head(held, heads, source) {
        HeadCame::Head(found) => match found.body {
            Ok(count) => finish(alloc, held, source, &found, count),
            Err(fault) => Incoming::Refused(fault),
        },
        HeadCame::Hopeless => Incoming::Refused(Fault::BadHead),
        HeadCame::TooLong => Incoming::Refused(Fault::HeadTooLong),
        HeadCame::End => {
            if held.len() == 0 {
                Incoming::End
            } else {
                Incoming::Cut
            }
        }
        HeadCame::Failed => Incoming::Failed,
    }
}

/// Reads until the bytes begin with a head, or never will.
fn read_head<S: Source>(held: &mut Buffer, heads: &mut HeadReader, source: &mut S) -> HeadCame
    ensures comes { HeadComes held.old held.new (S.left source.old) (S.left source.new) result }
    ensures cause { HeadCause (S.faults source.old) (S.faults source.new) result }
{
    'reads: loop {
        match heads.read(held.as_slice()) {
            Look::Head(found) => return HeadCame::Head(found),
            Look::Hopeless => return HeadCame::Hopeless,
            Look::Open => {}
        }
        if held.len() >= HEAD_LIMIT {
            return HeadCame::TooLong;
        }
        match held.receive(source, HEAD_LIMIT) {
            More::Bytes => {}
            More::End => return HeadCame::End,
            More::Failed => return HeadCame::Failed,
        }
    }
}

/// Reads the body behind a head, and takes the message out of the bytes that are held.
fn finish<S: Source>(
    alloc: Global,
    held: &mut Buffer,
    source: &mut S,
    found: &FoundHead,
    count: usize,
) -> Incoming
    requires found { IsFoundIn held.old found.now }
    requires body { found.now.body ≡ Ok count }
    ensures comes { Comes held.old held.new (S.left source.old) (S.left source.new) result }
    ensures cause { IncomingCause (S.faults source.old) (S.faults source.new) result }
{
    match read_body(held, source, found, count) {
        More::Bytes => {}
        More::End => return Incoming::Cut,
        More::Failed => return Incoming::Failed,
    }
    let Ok(message) = message_of(alloc, held.as_slice(), found, count) else {
        return Incoming::NoMemory;
    };
    held.drop_front(found.end + count);
    Incoming::Message(message)
}

/// Reads until the body is whole.
fn read_body<S: Source>(held: &mut Buffer, source: &mut S, found: &FoundHead, count: usize) -> More
    requires found { IsFoundIn held.old found.now }
    requires body { found.now.body ≡ Ok count }
    ensures comes { BodyComes found.now count held.old held.new (S.left source.old) (S.left source.new) result }
    ensures cause { MoreCause (S.faults source.old) (S.faults source.new) result }
{
    let whole = found.end + count;
    'reads: while held.len() < whole {
        match held.receive(source, whole) {
            More::Bytes => {}
            More::End => return More::End,
            More::Failed => return More::Failed,
        }
    }
    More::Bytes
}

/// A copy of the message at the front of the bytes.
fn message_of(
    alloc: Global,
    bytes: &[u8],
    found: &FoundHead,
    count: usize,
) -> Result<Message, NoMemory>
    requires found { IsFoundIn bytes.now found.now }
    requires body { found.now.body ≡ Ok count }
    requires whole { found.now.end + count ≤ length bytes.now }
    ensures { IfOk result (λ message. IsMessage bytes.now message (drop (found.now.end + count) bytes.now)) }
{
    let method = copy(alloc, found.method.of(bytes))?;
    let target = copy(alloc, found.target.of(bytes))?;
    let body = copy(alloc, &bytes[found.end..found.end + count])?;
    Ok(Message {
        method,
        target,
        body,
        asks_close: found.asks_close,
    })
}

fn copy(alloc: Global, bytes: &[u8]) -> Result<Text, NoMemory>
    ensures { IfOk result (λ text. text ≡ bytes.now) }
{
    Ok(Text::new(Vec::from_slice(alloc, bytes)?))
}
