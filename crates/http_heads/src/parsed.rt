//! What `httparse` says of a head.

ghost use Rattle.std.specs.Prelude.{◌≡◌, ◌≤◌, length};
ghost use Rattle.http_heads.specs.Looks.{Parses};

use httparse::spans::{HeaderSpan, RequestSpans, parse_request};
use httparse::{Error, Status};

/// What the parser says, which has room for all headers.
#[derive(Debug, Drop)]
pub(crate) enum Parsed {
    Head(RequestSpans),
    Partial,
    Never,
}

/// Parses at most 16,384 bytes, with room for 5,500 headers, more than they can hold.
pub(crate) fn parse(bytes: &[u8], spans: &mut [HeaderSpan]) -> Parsed
    requires short { length bytes.now ≤ 16384 }
    requires room { length spans.old ≡ 5500 }
    ensures { Parses bytes.now spans.new result }
{
    match parse_request(bytes, spans) {
        Ok(Status::Complete(head)) => Parsed::Head(head),
        Ok(Status::Partial) => Parsed::Partial,
        Err(Error::TooManyHeaders) => unreachable!(),
        Err(_) => Parsed::Never,
    }
}
