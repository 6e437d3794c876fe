//! Heads, read of the bytes that came so far.

ghost use Rattle.std.specs.Prelude.{◌≡◌, ◌≤◌, ◌==◌, ◌||◌, length, map, All};
ghost use Rattle.http_heads.specs.Headers.{is_closing};
ghost use Rattle.http_heads.specs.Looks.{IsFoundIn, Looks};
ghost use Rattle.httparse.specs.Spans.{IsHeaderWithin, IsRequestOf, IsRequestWithin, header_bytes};
ghost use Rattle.httparse.specs.Grammar.{NeverHasRequest};

use crate::headers::{is_closing, judge};
use crate::look::{FoundHead, Look};
use crate::parsed::{Parsed, parse};
use crate::target::method_end;
use httparse::spans::{EMPTY_HEADER_SPAN, HeaderSpan, RequestSpans};
use plain_data::NoMemory;
use std::alloc::Global;

/// The most bytes of a head.
const HEAD_LIMIT: usize = 16_384;

/// How many headers the bytes of a head can't pass.
const ROOM: usize = 5_500;

/// Reads heads. It keeps the room for where their headers stand.
#[derive(Debug, Drop)]
pub struct HeadReader {
    spans: Vec<HeaderSpan>,
    ghost roomy: { length spans.items ≡ 5500 },
}

impl HeadReader {
    pub fn new(alloc: Global) -> Result<HeadReader, NoMemory> {
        Ok(HeadReader {
            spans: vec![in alloc; EMPTY_HEADER_SPAN; ROOM]?,
        })
    }

    /// What the bytes begin with.
    pub fn read(&mut self, bytes: &[u8]) -> Look
        ensures { Looks bytes.now result }
    {
        let front = &bytes[..bytes.len().min(HEAD_LIMIT)];
        look_at(front, &mut self.spans)
    }
}

fn look_at(bytes: &[u8], spans: &mut [HeaderSpan]) -> Look
    requires short { length bytes.now ≤ 16384 }
    requires room { length spans.old ≡ 5500 }
    ensures { Looks bytes.now result }
{
    match parse(bytes, spans) {
        Parsed::Head(head) => Look::Head(found(bytes, spans, &head)),
        Parsed::Partial => Look::Open,
        Parsed::Never => look_again(bytes, spans),
    }
}

fn found(bytes: &[u8], spans: &[HeaderSpan], head: &RequestSpans) -> FoundHead
    requires short { length bytes.now ≤ 16384 }
    requires within { IsRequestWithin bytes.now spans.now head.now }
    requires of { IsRequestOf bytes.now spans.now head.now }
    ensures { IsFoundIn bytes.now result }
{
    let headers = &spans[..head.headers];
    FoundHead {
        method: head.method,
        target: head.path,
        end: head.len,
        asks_close: asks_close(head.version, bytes, headers),
        body: judge(bytes, headers),
    }
}

/// Whether a head of that version and with these headers asks that the connection be closed.
fn asks_close(version: u8, bytes: &[u8], headers: &[HeaderSpan]) -> bool
    requires { All (IsHeaderWithin (length bytes.now)) headers.now }
    ensures { result ≡ (version == 0 || is_closing (map (header_bytes bytes.now) headers.now)) }
{
    version == 0 || is_closing(bytes, headers)
}

/// Looks at bytes that never become a head. Where they end inside the target, it is the method that decides, since a
/// fault in a target counts only once the target has ended.
fn look_again(bytes: &[u8], spans: &mut [HeaderSpan]) -> Look
    requires short { length bytes.now ≤ 16384 }
    requires room { length spans.old ≡ 5500 }
    requires never { NeverHasRequest bytes.now }
    ensures { Looks bytes.now result }
{
    let Some(end) = method_end(bytes) else {
        return Look::Hopeless;
    };
    match parse(&bytes[..end], spans) {
        Parsed::Head(_) => unreachable!(),
        Parsed::Partial => Look::Open,
        Parsed::Never => Look::Hopeless,
    }
}
