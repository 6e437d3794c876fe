//! What a session writes to its messages.

ghost use Rattle.std.specs.Prelude.{◌≡◌, ◌↔◌, []};
ghost use Rattle.book_rows.specs.Book.{Book};
ghost use Rattle.desk_history.specs.declared.views.View.TheVariants.{Blank};

use desk_history::{NewHistory, new_history};
use http_front::{SessionEnd, session};
use keeper_core::PlannedKeeper;
use office_io::{FixedClock, MemorySink, MemorySource};
use sample_desks::{acts_kept, desk};
use sample_office::{PLAN, RENTS, UNIT, day, opening, post, written};
use shared_desk::Naming;
use std::alloc::Global;
use std::marker::Brand;
use std::process::Abort;
use std::sync::Wait;

/// What a response is that isn't the last.
fn response(rt: &impl Abort, alloc: Global, status: &str, point: u64, body: &str) -> String {
    let length = body.len() as u64;
    format!(in alloc;
        "HTTP/1.1 {status}\r\nbook: {point}\r\ncontent-length: {length}\r\ncontent-type: application/json\r\n\r\n{body}"
    ).expect(rt, "memory")
}

/// How a session ended, what it wrote, with ' for ", and how many acts were kept.
#[derive(Drop)]
struct Told {
    end: SessionEnd,
    responses: String,
    kept: usize,
}

impl Told {
    fn is(&self, end: SessionEnd, responses: &str, kept: usize) -> bool {
        self.end == end && self.responses.as_str() == responses && self.kept == kept
    }
}

/// Serves the messages, with ' for ", by the first pass of a desk on an empty book, whose keeper fails at these calls, of
/// which the first, 0, is the load.
fn served<R: Abort + Wait>(
    rt: &R,
    alloc: Global,
    text: &str,
    failing: &[u64],
    most: usize,
) -> Told {
    assert!(rt; most > 0);
    let history = new_history(alloc).expect(rt, "memory");
    let input = written(alloc, text).expect(rt, "memory").into_bytes();
    let mut source = MemorySource::new(input, Vec::new(alloc), most);
    let keeper = PlannedKeeper::new(alloc, failing.to_vec(alloc).expect(rt, "memory"));
    served_by::<R, Brand>(rt, alloc, history, keeper, &mut source)
}

/// The same, at a desk whose history has a name.
fn served_by<R: Abort + Wait, B: Naming>(
    rt: &R,
    alloc: Global,
    history: NewHistory,
    keeper: PlannedKeeper,
    source: &mut MemorySource,
) -> Told
    requires table { (history.table.shared.table_id ≡ B.table) × (history.book.table_id ≡ B.table) × (B.table.words ≡ 1) }
    requires blank { history.book.me ≡ (Blank, []) }
    requires told { (book : Book) → B.told book ↔ (book ≡ keeper.book) }
    requires sound { B.sound → ⊥ }
{
    let mut desk = desk::<B>(alloc, history, keeper).expect(rt, "a desk");
    let mut pass = desk.pass().expect(rt, "a pass");
    let mut sink = MemorySink::new(alloc, 16_384, Vec::new(alloc), 16_384).expect(rt, "memory");
    let clock = FixedClock::new(day("2024-01-01"));
    let end = session(
        rt,
        alloc,
        desk.shared(),
        &mut pass,
        source,
        &mut sink,
        &clock,
    );
    let responses = String::from_utf8(sink.into_bytes()).expect(rt, "text");
    Told {
        end,
        responses: responses.replace(alloc, "\"", "'").expect(rt, "memory"),
        kept: acts_kept(desk.finish(pass)),
    }
}

const REPLIES: [&str; 4] = [
    "{'act':1,'day':'2024-01-01','made':null}",
    "{'act':2,'day':'2024-01-01','made':{'unit':1}}",
    "{'act':3,'day':'2024-01-01','made':null}",
    "{'act':4,'day':'2024-01-01','made':{'assistance':548,'household':1,'record':1,'reimbursement':0,'tenant_rent':152,'ttp':212}}",
];

/// The responses to the opening.
fn opened(rt: &impl Abort, alloc: Global) -> String {
    let mut text = String::new(alloc);
    for (place, reply) in REPLIES.iter().enumerate() {
        text.push_str(&response(rt, alloc, "201 Created", place as u64 + 1, reply))
            .expect(rt, "memory");
    }
    text
}

// However few bytes a read gives, each act has its reply at its point.
#[test]
fn acts_are_made_in_turn(rt: HostRuntime) {
    let alloc = rt.alloc();
    let wanted = opened(&rt, alloc);
    for most in [1, 700, 4_096] {
        let told = served(&rt, alloc, &opening(alloc).expect(&rt, "memory"), &[], most);
        assert!(rt; told.is(SessionEnd::Ended, &wanted, 4));
    }
}

/// Whether the message, behind the opening ones, has this response and nothing is kept of it.
fn has<R: Abort + Wait>(rt: &R, alloc: Global, message: &str, wanted: &str) -> bool {
    let mut text = opening(alloc).expect(rt, "memory");
    text.push_str(message).expect(rt, "memory");
    let mut responses = opened(rt, alloc);
    responses.push_str(wanted).expect(rt, "memory");
    served(rt, alloc, &text, &[], 4_096).is(SessionEnd::Ended, &responses, 4)
}

// A repeat has the first reply, another command of the same request is refused, and the book stays.
#[test]
fn requests_are_made_once(rt: HostRuntime) {
    let alloc = rt.alloc();
    let again = response(&rt, alloc, "201 Created", 4, REPLIES[1]);
    assert!(rt;
        has(
            &rt,
            alloc,
            &post(alloc, 2, UNIT).expect(&rt, "memory"),
            &again
        )
    );
    let reused = "{'refused':{'act':2,'kind':'RequestReused','number':1}}";
    let other = response(&rt, alloc, "409 Conflict", 4, reused);
    assert!(rt;
        has(
            &rt,
            alloc,
            &post(alloc, 2, RENTS).expect(&rt, "memory"),
            &other
        )
    );
}

// Each question is answered of the book that stands.
#[test]
fn questions_are_answered(rt: HostRuntime) {
    let alloc = rt.alloc();
    for (target, body) in [
        (
            "/households/1",
            "{'household':1,'live':[1],'name':'Ada Reed','newest':1}",
        ),
        ("/households/01/paid/2024-01?x=/", "{'paid':0}"),
        ("/units/1/next/2024-01-01", "{'next':null}"),
        ("/vouchers/2024-01", "{'voucher':null}"),
        (
            "/due/2024-09-03",
            "{'due':[{'due':'2025-01-01','household':1}]}",
        ),
    ] {
        let message = format!(in alloc; "GET {target} HTTP/1.1\r\n\r\n").expect(&rt, "memory");
        let wanted = response(&rt, alloc, "200 OK", 4, body);
        assert!(rt; has(&rt, alloc, &message, &wanted));
    }
}

/// What is asked of an empty book, and what is said of it.
const REFUSED: [(&str, &str, &str); 9] = [
    (
        "GET /nowhere HTTP/1.1\r\n\r\n",
        "404 Not Found",
        "{'refused':{'kind':'NoRoute'}}",
    ),
    (
        "POST /due/2024-01-01 HTTP/1.1\r\n\r\n",
        "405 Method Not Allowed",
        "{'refused':{'kind':'NoMethod'}}",
    ),
    (
        "HEAD /households/1 HTTP/1.1\r\n\r\n",
        "405 Method Not Allowed",
        "{'refused':{'kind':'NoMethod'}}",
    ),
    (
        "GET /due/2024-02-30 HTTP/1.1\r\n\r\n",
        "422 Unprocessable Entity",
        "{'refused':{'kind':'Form','path':'{day}'}}",
    ),
    (
        "GET /households/x/records/y HTTP/1.1\r\n\r\n",
        "422 Unprocessable Entity",
        "{'refused':{'kind':'Form','path':'{h}'}}",
    ),
    (
        "POST /acts HTTP/1.1\r\n\r\n",
        "422 Unprocessable Entity",
        "{'refused':{'kind':'Form','path':''}}",
    ),
    (
        "POST /acts HTTP/1.1\r\nContent-Length: 11\r\n\r\n{'clerk':1}",
        "422 Unprocessable Entity",
        "{'refused':{'kind':'Form','path':'request'}}",
    ),
    (
        "GET /due/2024-01-01 HTTP/1.1\r\n\r\n",
        "409 Conflict",
        "{'refused':{'kind':'NoPlan','number':2}}",
    ),
    (
        "GET /households/1 HTTP/1.1\r\n\r\n",
        "409 Conflict",
        "{'refused':{'id':1,'kind':'NoSuch','number':5,'what':'household'}}",
    ),
];

// Nothing is kept of what is refused, and the session goes on.
#[test]
fn refusals_have_their_status(rt: HostRuntime) {
    let alloc = rt.alloc();
    let mut text = String::new(alloc);
    let mut wanted = String::new(alloc);
    for (message, status, body) in REFUSED {
        text.push_str(message).expect(&rt, "memory");
        wanted
            .push_str(&response(&rt, alloc, status, 0, body))
            .expect(&rt, "memory");
    }
    assert!(rt; served(&rt, alloc, &text, &[], 4_096).is(SessionEnd::Ended, &wanted, 0));
}

// What the keeper doesn't keep isn't acknowledged, and the next act is judged without it.
#[test]
fn a_keeper_that_fails_is_blamed_once(rt: HostRuntime) {
    let alloc = rt.alloc();
    let mut wanted = String::new(alloc);
    for (status, point, body) in [
        ("201 Created", 1, REPLIES[0]),
        ("201 Created", 2, REPLIES[1]),
        ("503 Service Unavailable", 2, "{'refused':{'kind':'Store'}}"),
        (
            "409 Conflict",
            2,
            "{'refused':{'day':'2024-01-01','group':1,'kind':'NoRent','number':10}}",
        ),
    ] {
        wanted
            .push_str(&response(&rt, alloc, status, point, body))
            .expect(&rt, "memory");
    }
    let told = served(
        &rt,
        alloc,
        &opening(alloc).expect(&rt, "memory"),
        &[3],
        4_096,
    );
    assert!(rt; told.is(SessionEnd::Ended, &wanted, 2));
}

// A message without its last byte is no act.
#[test]
fn a_cut_message_is_no_act(rt: HostRuntime) {
    let alloc = rt.alloc();
    let whole = post(alloc, 1, PLAN).expect(&rt, "memory");
    let cut = whole
        .as_str()
        .get(..whole.len().saturating_sub(1))
        .expect(&rt, "a last byte");
    assert!(rt; served(&rt, alloc, cut, &[], 4_096).is(SessionEnd::Cut, "", 0));
}

/// What a response is that is the last.
fn last_response(rt: &impl Abort, alloc: Global, status: &str, point: u64, body: &str) -> String {
    let text = response(rt, alloc, status, point, body);
    let last = "connection: close\r\ncontent-length";
    text.replace(alloc, "content-length", last)
        .expect(rt, "memory")
}

/// Whether the message, behind the opening ones, has this last response, nothing is kept of it, and what follows isn't read.
fn ends_with<R: Abort + Wait>(
    rt: &R,
    alloc: Global,
    message: &str,
    end: SessionEnd,
    wanted: &str,
) -> bool {
    let mut text = opening(alloc).expect(rt, "memory");
    text.push_str(message).expect(rt, "memory");
    text.push_str("GET /households/1 HTTP/1.1\r\n\r\n")
        .expect(rt, "memory");
    let mut responses = opened(rt, alloc);
    responses.push_str(wanted).expect(rt, "memory");
    served(rt, alloc, &text, &[], 1).is(end, &responses, 4)
}

/// What is no message, and how it is refused.
const NO_MESSAGES: [(&str, u16, &str, &str); 5] = [
    (
        "GET /due/2024-01-01 HTTP/1.1\r\nA: b\0c\r\n\r\n",
        400,
        "400 Bad Request",
        "{'refused':{'kind':'BadHead'}}",
    ),
    (
        "POST /acts HTTP/1.1\r\nContent-Length: 2\r\nContent-Length: 2\r\n\r\n{}",
        400,
        "400 Bad Request",
        "{'refused':{'kind':'BadLength'}}",
    ),
    (
        "POST /acts HTTP/1.1\r\nContent-Length: +5\r\n\r\n",
        400,
        "400 Bad Request",
        "{'refused':{'kind':'BadLength'}}",
    ),
    (
        "POST /acts HTTP/1.1\r\nContent-Length: \r\n\r\n",
        400,
        "400 Bad Request",
        "{'refused':{'kind':'BadLength'}}",
    ),
    (
        "POST /acts HTTP/1.1\r\nContent-Length: 99999999999999999999\r\n\r\n",
        413,
        "413 Payload Too Large",
        "{'refused':{'kind':'BodyTooLong'}}",
    ),
];

#[test]
fn no_messages_end_a_session(rt: HostRuntime) {
    let alloc = rt.alloc();
    for (message, status, phrase, body) in NO_MESSAGES {
        let wanted = last_response(&rt, alloc, phrase, 4, body);
        let end = SessionEnd::Refused { status };
        assert!(rt; ends_with(&rt, alloc, message, end, &wanted), "{message}");
    }
    let message = "GET /due/2024-01-01?x=1 HTTP/1.0\r\n\r\n";
    let wanted = last_response(&rt, alloc, "200 OK", 4, "{'due':[]}");
    assert!(rt; ends_with(&rt, alloc, message, SessionEnd::Ended, &wanted));
}

/// A body of 128 brackets and as many that close them.
fn nested(rt: &impl Abort, alloc: Global) -> String {
    let opening = "[".repeat(alloc, 128).expect(rt, "memory");
    let closing = "]".repeat(alloc, 128).expect(rt, "memory");
    let message = format!(in alloc;
        "POST /acts HTTP/1.1\r\nContent-Length: 256\r\n\r\n{opening}{closing}"
    );
    message.expect(rt, "memory")
}

// What isn't of its form is told by its path, and the session goes on.
#[test]
fn bad_forms_are_told(rt: HostRuntime) {
    let alloc = rt.alloc();
    let nested = nested(&rt, alloc);
    for (message, path) in [
        ("POST /acts HTTP/1.1\r\nContent-Length: 000\r\n\r\n", ""),
        (nested.as_str(), ""),
        ("GET /due/2024-02-30 HTTP/1.1\r\n\r\n", "{day}"),
        ("GET /households/4294967296 HTTP/1.1\r\n\r\n", "{h}"),
    ] {
        let body = format!(in alloc; "{{'refused':{{'kind':'Form','path':'{path}'}}}}");
        let body = body.expect(&rt, "memory");
        let wanted = response(&rt, alloc, "422 Unprocessable Entity", 4, &body);
        assert!(rt; has(&rt, alloc, message, &wanted), "{message}");
    }
}
