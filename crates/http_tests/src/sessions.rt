//! Sessions.

use http_messages::Message;
use http_responses::{Refusal, Reply};
use http_session::{Desk, SessionEnd, session_over};
use office_io::{MemorySink, MemorySource};
use std::alloc::Global;
use std::process::Abort;

/// A desk that finds no route for any message. It counts what it is asked, and has memory for so many replies.
#[derive(Drop)]
struct Lost {
    asked: u32,
    memory: u32,
}

impl Desk for Lost {
    ghost use Rattle.std.specs.Prelude.{◌≡◌, ◌+◌, ◌≤◌, ⊤};

    ghost in_order = { λ desk. ⊤ };

    ghost answers = { λ desk message reply desk_now. (desk_now.asked ≡ desk.asked + 1) × (reply.point ≡ desk_now.asked) };

    ghost gives_up = { λ desk message desk_now. desk_now ≡ desk };

    ghost follows = { λ desk desk_now. desk.asked ≤ desk_now.asked };

    ghost point = { λ desk. desk.asked };

    fn answer(&mut self, _alloc: Global, _message: &Message) -> Option<Reply> {
        if self.asked >= self.memory {
            return None;
        }
        self.asked += 1;
        Some(Reply::refused(Refusal::NoRoute, self.asked))
    }

    fn seen(&self) -> u32 {
        self.asked
    }

    ghost use Rattle.std.proofs.Common.{rules};

    ghost stays = { Prim.search rules };

    ghost joins = { Prim.search rules };
}

/// What a session is given: the bytes, which reads and which writes fail, and the replies that there is memory for.
#[derive(Clone, Copy)]
struct Given<'a> {
    text: &'a str,
    reads: &'a [u64],
    writes: &'a [u64],
    memory: u32,
}

/// Whether a session ends so, after so many questions, and has written these bytes.
fn does(
    rt: &impl Abort,
    alloc: Global,
    given: &Given<'_>,
    wanted: SessionEnd,
    asked: u32,
    written: &str,
) -> bool {
    let bytes = Vec::from_slice(alloc, given.text.as_bytes()).expect(rt, "memory");
    let reads = given.reads.to_vec(alloc).expect(rt, "memory");
    let writes = given.writes.to_vec(alloc).expect(rt, "memory");
    let mut source = MemorySource::new(bytes, reads, 4_096);
    let mut sink = MemorySink::new(alloc, 4_096, writes, 4_096).expect(rt, "memory");
    let mut desk = Lost {
        asked: 0,
        memory: given.memory,
    };
    let end = session_over(alloc, &mut desk, &mut source, &mut sink);
    end == wanted && desk.asked == asked && sink.as_bytes() == written.as_bytes()
}

const ONE: &str = "GET /nowhere HTTP/1.1\r\n\r\n";

const TWO: &str = "GET /nowhere HTTP/1.1\r\n\r\nGET /nowhere HTTP/1.0\r\n\r\nGET";

const FIRST: &str =
    "HTTP/1.1 404 Not Found\r\nbook: 1\r\ncontent-length: 30\r\ncontent-type: application/json\r\n\r\n{\"refused\":{\"kind\":\"NoRoute\"}}";

const BOTH: &str =
    "HTTP/1.1 404 Not Found\r\nbook: 1\r\ncontent-length: 30\r\ncontent-type: application/json\r\n\r\n{\"refused\":{\"kind\":\"NoRoute\"}}HTTP/1.1 404 Not Found\r\nbook: 2\r\nconnection: close\r\ncontent-length: 30\r\ncontent-type: application/json\r\n\r\n{\"refused\":{\"kind\":\"NoRoute\"}}";

const TOO_LONG: &str =
    "HTTP/1.1 413 Payload Too Large\r\nbook: 0\r\nconnection: close\r\ncontent-length: 34\r\ncontent-type: application/json\r\n\r\n{\"refused\":{\"kind\":\"BodyTooLong\"}}";

fn whole(text: &str) -> Given<'_> {
    Given {
        text,
        reads: &[],
        writes: &[],
        memory: 20_000,
    }
}

#[test]
fn sessions_end_as_their_messages_do(rt: HostRuntime) {
    let alloc = rt.alloc();
    assert!(rt; does(&rt, alloc, &whole(""), SessionEnd::Ended, 0, ""));
    assert!(rt; does(&rt, alloc, &whole(ONE), SessionEnd::Ended, 1, FIRST));
    assert!(rt; does(&rt, alloc, &whole(TWO), SessionEnd::Ended, 2, BOTH));
    let cut = "GET /nowhere HTTP/1.1\r\n\r\nGET";
    assert!(rt; does(&rt, alloc, &whole(cut), SessionEnd::Cut, 1, FIRST));
    let long = "POST /acts HTTP/1.1\r\nContent-Length: 16385\r\n\r\n";
    assert!(rt;
        does(
            &rt,
            alloc,
            &whole(long),
            SessionEnd::Refused { status: 413 },
            0,
            TOO_LONG
        )
    );
}

// The second read fails, and the first message has its response.
#[test]
fn a_read_fault_keeps_the_responses(rt: HostRuntime) {
    let given = Given {
        text: ONE,
        reads: &[1],
        writes: &[],
        memory: 20_000,
    };
    assert!(rt; does(&rt, rt.alloc(), &given, SessionEnd::ReadFault, 1, FIRST));
}

// The second message isn't asked.
#[test]
fn a_write_fault_ends_a_session(rt: HostRuntime) {
    let given = Given {
        text: TWO,
        reads: &[],
        writes: &[0],
        memory: 20_000,
    };
    assert!(rt; does(&rt, rt.alloc(), &given, SessionEnd::WriteFault, 1, ""));
}

#[test]
fn a_desk_with_no_memory_ends_a_session(rt: HostRuntime) {
    let given = Given {
        text: TWO,
        reads: &[],
        writes: &[],
        memory: 1,
    };
    assert!(rt; does(&rt, rt.alloc(), &given, SessionEnd::NoMemory, 1, FIRST));
}

const TEN_THOUSANDTH: &str =
    "HTTP/1.1 404 Not Found\r\nbook: 10000\r\nconnection: close\r\ncontent-length: 30\r\ncontent-type: application/json\r\n\r\n{\"refused\":{\"kind\":\"NoRoute\"}}";

/// How a session ends of 9,999 messages, this one, and one more; and whether it has written these bytes last.
fn after_9_999(rt: &impl Abort, alloc: Global, last: &str, written: &str) -> (SessionEnd, bool) {
    let mut bytes = Vec::new(alloc);
    for _ in 0..9_999 {
        bytes
            .extend_from_slice(b"GET / HTTP/1.1\n\n")
            .expect(rt, "memory");
    }
    bytes
        .extend_from_slice(last.as_bytes())
        .expect(rt, "memory");
    bytes
        .extend_from_slice(b"GET / HTTP/1.1\n\n")
        .expect(rt, "memory");
    let mut source = MemorySource::new(bytes, Vec::new(alloc), 4_096);
    let mut sink = MemorySink::new(alloc, 1_400_000, Vec::new(alloc), 4_096).expect(rt, "memory");
    let mut desk = Lost {
        asked: 0,
        memory: 20_000,
    };
    let end = session_over(alloc, &mut desk, &mut source, &mut sink);
    (end, sink.as_bytes().ends_with(written.as_bytes()))
}

#[test]
fn ten_thousand_responses(rt: HostRuntime) {
    let (end, is_last) = after_9_999(&rt, rt.alloc(), "GET / HTTP/1.1\n\n", TEN_THOUSANDTH);
    assert!(rt; end == SessionEnd::Spent && is_last);
    let (end, is_last) = after_9_999(&rt, rt.alloc(), "GET / HTTP/1.0\n\n", TEN_THOUSANDTH);
    assert!(rt; end == SessionEnd::Ended && is_last);
    let (end, _) = after_9_999(
        &rt,
        rt.alloc(),
        "POST / HTTP/1.1\nContent-Length: x\n\n",
        "",
    );
    assert!(rt; end == SessionEnd::Refused { status: 400 });
}
