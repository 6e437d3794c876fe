//! Responses.

ghost use Rattle.std.specs.Prelude.{◌<◌};

use http_responses::{Body, Refusal, Reply, Status, write_response};
use office_io::MemorySink;
use plain_data::Text;
use std::alloc::Global;
use std::process::Abort;

/// Whether the response is these bytes.
fn writes(rt: &impl Abort, alloc: Global, reply: &Reply, is_last: bool, wanted: &str) -> bool {
    let mut sink = MemorySink::new(alloc, 4_096, Vec::new(alloc), 4_096).expect(rt, "memory");
    write_response(&mut sink, reply, is_last) && sink.as_bytes() == wanted.as_bytes()
}

fn text_reply(rt: &impl Abort, alloc: Global, status: Status, point: u32, body: &str) -> Reply {
    let bytes = Vec::from_slice(alloc, body.as_bytes()).expect(rt, "memory");
    Reply {
        status,
        point,
        body: Body::Text(Text::new(bytes)),
    }
}

#[test]
fn paid_assistance_of_a_month(rt: HostRuntime) {
    let reply = text_reply(&rt, rt.alloc(), Status::Okay, 9, "{\"paid\":548}");
    let wanted =
        "HTTP/1.1 200 OK\r\nbook: 9\r\ncontent-length: 12\r\ncontent-type: application/json\r\n\r\n{\"paid\":548}";
    assert!(rt; writes(&rt, rt.alloc(), &reply, false, wanted));
}

#[test]
fn last_response_of_a_session(rt: HostRuntime) {
    let reply = Reply::refused(Refusal::HeadTooLong, 4);
    let wanted =
        "HTTP/1.1 431 Request Header Fields Too Large\r\nbook: 4\r\nconnection: close\r\ncontent-length: 34\r\ncontent-type: application/json\r\n\r\n{\"refused\":{\"kind\":\"HeadTooLong\"}}";
    assert!(rt; writes(&rt, rt.alloc(), &reply, true, wanted));
}

#[test]
fn want_of_memory_has_a_constant_body(rt: HostRuntime) {
    let reply = Reply::refused(Refusal::NoMemory, 0);
    let wanted =
        "HTTP/1.1 507 Insufficient Storage\r\nbook: 0\r\ncontent-length: 31\r\ncontent-type: application/json\r\n\r\n{\"refused\":{\"kind\":\"NoMemory\"}}";
    assert!(rt; writes(&rt, rt.alloc(), &reply, false, wanted));
}

// A second write would fail.
#[test]
fn small_responses_go_out_in_one_write(rt: HostRuntime) {
    let reply = text_reply(&rt, rt.alloc(), Status::Created, 5, "{\"act\":5}");
    assert!(rt; goes_out(&rt, rt.alloc(), &reply, &[1]));
}

// The head, and then the body.
#[test]
fn large_responses_go_out_in_two(rt: HostRuntime) {
    let bytes = vec![in rt.alloc(); b'x'; 2_048].expect(&rt, "memory");
    let reply = Reply {
        status: Status::Okay,
        point: 1,
        body: Body::Text(Text::new(bytes)),
    };
    assert!(rt; !goes_out(&rt, rt.alloc(), &reply, &[1]));
    assert!(rt; goes_out(&rt, rt.alloc(), &reply, &[2]));
}

fn goes_out(rt: &impl Abort, alloc: Global, reply: &Reply, failing: &[u64]) -> bool {
    let calls = failing.to_vec(alloc).expect(rt, "memory");
    let mut sink = MemorySink::new(alloc, 4_096, calls, 4_096).expect(rt, "memory");
    write_response(&mut sink, reply, false)
}
