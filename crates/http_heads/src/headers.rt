//! What the headers say of the body.

ghost use Rattle.std.specs.Prelude.{◌≡◌, length, map, All};
ghost use Rattle.httparse.specs.Spans.{IsHeaderWithin, header_bytes};
ghost use Rattle.http_heads.specs.Headers.{has_header, is_closing, is_in_any_case, judged, length_from, length_of, values_of};

use crate::Fault;
use httparse::spans::HeaderSpan;

/// The most headers of a head.
const HEADER_LIMIT: usize = 64;

/// The most bytes of a body.
const BODY_LIMIT: usize = 16_384;

/// How many bytes of body the headers announce, or why they are refused.
#[tactic(auto, unfolding(crate::specs::Headers::judged))]
pub(crate) fn judge(bytes: &[u8], headers: &[HeaderSpan]) -> Result<usize, Fault>
    requires { All (IsHeaderWithin (length bytes.now)) headers.now }
    ensures { result ≡ judged (map (header_bytes bytes.now) headers.now) }
{
    if headers.len() > HEADER_LIMIT {
        return Err(Fault::HeadTooLong);
    }
    if has_header(bytes, headers, b"transfer-encoding") {
        return Err(Fault::Coding);
    }
    length_of(bytes, headers)
}

/// Whether a header has that name, which is in small letters.
fn has_header(bytes: &[u8], headers: &[HeaderSpan], name: &[u8]) -> bool
    requires { All (IsHeaderWithin (length bytes.now)) headers.now }
    ensures { result ≡ has_header name.now (map (header_bytes bytes.now) headers.now) }
{
    for header in headers {
        if is_in_any_case(name, header.name.of(bytes)) {
            return true;
        }
    }
    false
}

/// Whether a `Connection` header has the value `close`.
pub(crate) fn is_closing(bytes: &[u8], headers: &[HeaderSpan]) -> bool
    requires { All (IsHeaderWithin (length bytes.now)) headers.now }
    ensures { result ≡ is_closing (map (header_bytes bytes.now) headers.now) }
{
    for header in headers {
        if is_in_any_case(b"connection", header.name.of(bytes))
            && is_in_any_case(b"close", header.value.of(bytes))
        {
            return true;
        }
    }
    false
}

fn is_in_any_case(word: &[u8], text: &[u8]) -> bool
    ensures { result ≡ is_in_any_case word.now text.now }
{
    text.eq_ignore_ascii_case(word)
}

/// The length that the one `Content-Length` says, 0 where there is none.
fn length_of(bytes: &[u8], headers: &[HeaderSpan]) -> Result<usize, Fault>
    requires { All (IsHeaderWithin (length bytes.now)) headers.now }
    ensures { result ≡ length_of (values_of (map (header_bytes bytes.now) headers.now)) }
{
    let mut found: Option<&[u8]> = None;
    for header in headers {
        if is_in_any_case(b"content-length", header.name.of(bytes)) {
            match found {
                Some(_) => return Err(Fault::BadLength),
                None => found = Some(header.value.of(bytes)),
            }
        }
    }
    match found {
        Some(value) => length_from(value),
        None => Ok(0),
    }
}

/// The number that the digits write, as far as a body may be long.
fn length_from(digits: &[u8]) -> Result<usize, Fault>
    ensures { result ≡ length_from digits.now }
{
    if digits.is_empty() {
        return Err(Fault::BadLength);
    }
    let mut count: usize = 0;
    for digit in digits {
        if !digit.is_ascii_digit() {
            return Err(Fault::BadLength);
        }
        count = (count * 10 + usize::from(*digit - b'0')).min(BODY_LIMIT + 1);
    }
    if count > BODY_LIMIT {
        Err(Fault::BodyTooLong)
    } else {
        Ok(count)
    }
}
