//! Messages, however they are cut.

ghost use Rattle.std.specs.Prelude.{◌<◌};

use http_heads::Fault;
use http_messages::{Inbox, Incoming};
use office_io::MemorySource;
use std::alloc::Global;
use std::process::Abort;

/// What comes next, in few words.
fn told(incoming: Incoming) -> &'static str {
    match incoming {
        Incoming::Message(_) => "message",
        Incoming::End => "end",
        Incoming::Cut => "cut",
        Incoming::Refused(fault) => fault_told(fault),
        Incoming::Failed => "failed",
        Incoming::NoMemory => "no memory",
    }
}

fn fault_told(fault: Fault) -> &'static str {
    match fault {
        Fault::BadHead => "BadHead",
        Fault::HeadTooLong => "HeadTooLong",
        Fault::Coding => "Coding",
        Fault::BadLength => "BadLength",
        Fault::BodyTooLong => "BodyTooLong",
    }
}

/// What comes first of these bytes, of which a read gives so many at most.
fn first(rt: &impl Abort, alloc: Global, text: &[u8], failing: &[u64], most: usize) -> &'static str
    requires { 0 < most }
{
    let bytes = Vec::from_slice(alloc, text).expect(rt, "memory");
    let calls = failing.to_vec(alloc).expect(rt, "memory");
    let mut source = MemorySource::new(bytes, calls, most);
    let mut inbox = Inbox::new(alloc).expect(rt, "memory");
    told(inbox.next_message(alloc, &mut source))
}

/// Whether the next message has these parts.
fn comes(
    inbox: &mut Inbox,
    alloc: Global,
    source: &mut MemorySource,
    parts: &[&[u8]; 3],
    asks_close: bool,
) -> bool {
    match inbox.next_message(alloc, source) {
        Incoming::Message(message) => {
            message.method.as_bytes() == parts[0]
                && message.target.as_bytes() == parts[1]
                && message.body.as_bytes() == parts[2]
                && message.asks_close == asks_close
        }
        _ => false,
    }
}

const TWO: &str =
    "POST /acts HTTP/1.1\r\nHost: office\r\nContent-Length: 000005\r\n\r\nhello\r\nGET /due/2024-01-01?x=1 HTTP/1.0\n\n";

// However the reads cut them.
#[test]
fn two_messages_of_any_pieces(rt: HostRuntime) {
    for most in 1..40 {
        reads_two(&rt, rt.alloc(), most);
    }
    reads_two(&rt, rt.alloc(), 4_096);
}

fn reads_two(rt: &impl Abort, alloc: Global, most: usize)
    requires { 0 < most }
{
    let text = Vec::from_slice(alloc, TWO.as_bytes()).expect(rt, "memory");
    let mut source = MemorySource::new(text, Vec::new(alloc), most);
    let mut inbox = Inbox::new(alloc).expect(rt, "memory");
    assert!(rt;
        comes(
            &mut inbox,
            alloc,
            &mut source,
            &[b"POST", b"/acts", b"hello"],
            false
        )
    );
    assert!(rt;
        comes(
            &mut inbox,
            alloc,
            &mut source,
            &[b"GET", b"/due/2024-01-01?x=1", b""],
            true
        )
    );
    assert!(rt; told(inbox.next_message(alloc, &mut source)) == "end");
}

const REFUSED: [(&str, &str); 12] = [
    ("", "end"),
    ("\r\n", "cut"),
    ("GET /due/2024", "cut"),
    ("GET /due HTTP/1.1\r\nContent-Length: 3\r\n\r\nab", "cut"),
    ("G\x01T /", "BadHead"),
    ("GET /a\x01", "cut"),
    ("GET /a\x01 ", "BadHead"),
    ("GET / HTTP/1.1\r\nA: \0\r\n\r\n", "BadHead"),
    (
        "GET / HTTP/1.1\r\nTransfer-Encoding: chunked\r\nContent-Length: x\r\n\r\n",
        "Coding",
    ),
    (
        "POST /acts HTTP/1.1\r\nContent-Length: 1\r\ncontent-length: 1\r\n\r\na",
        "BadLength",
    ),
    (
        "POST /acts HTTP/1.1\r\nContent-Length: +5\r\n\r\n",
        "BadLength",
    ),
    (
        "POST /acts HTTP/1.1\r\nContent-Length: 99999999999999999999\r\n\r\n",
        "BodyTooLong",
    ),
];

#[test]
fn refusals_of_any_pieces(rt: HostRuntime) {
    for (text, wanted) in &REFUSED {
        assert!(rt; first(&rt, rt.alloc(), text.as_bytes(), &[], 1) == *wanted);
        assert!(rt; first(&rt, rt.alloc(), text.as_bytes(), &[], 7) == *wanted);
        assert!(rt; first(&rt, rt.alloc(), text.as_bytes(), &[], 4_096) == *wanted);
    }
}

#[test]
fn bounds_of_a_body(rt: HostRuntime) {
    assert!(rt;
        first(
            &rt,
            rt.alloc(),
            b"GET / HTTP/1.1\r\nContent-Length: 16385\r\n\r\n",
            &[],
            64
        ) == "BodyTooLong"
    );
    assert!(rt;
        first(
            &rt,
            rt.alloc(),
            b"GET / HTTP/1.1\r\nContent-Length: 16384\r\n\r\n",
            &[],
            64
        ) == "cut"
    );
    assert!(rt;
        first(
            &rt,
            rt.alloc(),
            b"GET / HTTP/1.1\r\nContent-Length: \r\n\r\n",
            &[],
            64
        ) == "BadLength"
    );
}

/// A head with so many headers, and then this many bytes of target.
fn head_of(rt: &impl Abort, alloc: Global, headers: usize, target: usize) -> Vec<u8> {
    let mut bytes = Vec::new(alloc);
    bytes.extend_from_slice(b"GET /").expect(rt, "memory");
    for _ in 0..target {
        bytes.push(b'a').expect(rt, "memory");
    }
    bytes
        .extend_from_slice(b" HTTP/1.1\r\n")
        .expect(rt, "memory");
    for _ in 0..headers {
        bytes.extend_from_slice(b"a:b\r\n").expect(rt, "memory");
    }
    bytes.extend_from_slice(b"\r\n").expect(rt, "memory");
    bytes
}

#[test]
fn bounds_of_a_head(rt: HostRuntime) {
    let alloc = rt.alloc();
    assert!(rt; first(&rt, alloc, &head_of(&rt, alloc, 64, 0), &[], 4_096) == "message");
    assert!(rt; first(&rt, alloc, &head_of(&rt, alloc, 65, 0), &[], 4_096) == "HeadTooLong");
    // 5 and 13 bytes stand around the target.
    assert!(rt; first(&rt, alloc, &head_of(&rt, alloc, 0, 16_366), &[], 4_096) == "message");
    assert!(rt; first(&rt, alloc, &head_of(&rt, alloc, 0, 16_367), &[], 4_096) == "HeadTooLong");
}

// A peer that waits for its answer gets it: the read behind the message would fail.
#[test]
fn reads_no_further_than_the_message(rt: HostRuntime) {
    let text = b"GET / HTTP/1.1\r\nContent-Length: 2\r\n\r\nab";
    assert!(rt; first(&rt, rt.alloc(), text, &[1], 4_096) == "message");
    assert!(rt; first(&rt, rt.alloc(), b"G\x01", &[1], 4_096) == "BadHead");
    assert!(rt; first(&rt, rt.alloc(), b"GET", &[1], 4_096) == "failed");
}

// What a fault left is read later.
#[test]
fn goes_on_after_each_fault(rt: HostRuntime) {
    for call in 0..40 {
        goes_on_after(&rt, rt.alloc(), call);
    }
}

fn goes_on_after(rt: &impl Abort, alloc: Global, call: u64) {
    let text = Vec::from_slice(alloc, b"GET / HTTP/1.1\r\nContent-Length: 2\r\n\r\nab").expect(
        rt, "memory",
    );
    let calls = [call].to_vec(alloc).expect(rt, "memory");
    let mut source = MemorySource::new(text, calls, 1);
    let mut inbox = Inbox::new(alloc).expect(rt, "memory");
    let before = told(inbox.next_message(alloc, &mut source));
    if before == "failed" {
        assert!(rt;
            comes(
                &mut inbox,
                alloc,
                &mut source,
                &[b"GET", b"/", b"ab"],
                false
            )
        );
    } else {
        assert!(rt; before == "message");
    }
}
