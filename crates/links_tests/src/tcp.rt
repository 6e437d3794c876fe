//! Listeners over TCP.

use office_io::{Got, Put, Sink, Source};
use office_links::{Accepted, Listener, TcpLinks};
use std::alloc::Global;
use std::io::Write;
use std::net::{Ipv4Addr, Net, TcpListener, TcpStream};
use std::{io, thread};

/// Takes the next link, answers what it brings by one piece, and gives it back.
fn serves<L: Listener>(listener: &mut L, wanted: &[u8], answer: &[u8]) -> &'static str {
    match listener.accept() {
        Accepted::Link(mut source, mut sink) => {
            let told = if brings(&mut source, wanted) && writes(&mut sink, answer) {
                "served"
            } else {
                "not served"
            };
            listener.done(source, sink);
            told
        }
        Accepted::End => "end",
        Accepted::Failed => "failed",
    }
}

/// Whether the next read brings these few bytes.
fn brings<S: Source>(source: &mut S, wanted: &[u8]) -> bool {
    let mut buffer = [0; 64];
    match source.read(&mut buffer) {
        Got::Bytes(count) => &buffer[..count] == wanted,
        _ => false,
    }
}

/// Whether one write takes these few bytes.
fn writes<W: Sink>(sink: &mut W, piece: &[u8]) -> bool {
    match piece {
        [] => false,
        _ => sink.write(piece) == Put::Bytes(piece.len()),
    }
}

/// A connection to that port, with these bytes sent.
fn client<N: Net<Listener = TcpListener, Stream = TcpStream>>(
    net: &N,
    port: u16,
    asked: &[u8],
) -> io::Result<TcpStream> {
    let mut stream = TcpStream::connect(net, (Ipv4Addr::LOCALHOST, port))?;
    stream.write_all(asked)?;
    Ok(stream)
}

/// Whether these bytes and then the end come to a client.
fn hears(alloc: Global, stream: &TcpStream, wanted: &str) -> io::Result<bool> {
    let mut reader = stream;
    Ok(io::read_to_string(alloc, &mut reader)?.as_str() == wanted)
}

// The client keeps its own side open, and yet comes to the end of what was sent.
#[test]
fn bytes_go_both_ways(rt: HostRuntime) -> io::Result<()> {
    let mut links = TcpLinks::bind(&rt, 0, 2)?;
    let port = links.port()?;
    let first = client(&rt, port, b"first")?;
    let second = client(&rt, port, b"second")?;
    assert!(rt; serves(&mut links, b"first", b"one") == "served");
    assert!(rt; hears(rt.alloc(), &first, "one")?);
    assert!(rt; serves(&mut links, b"second", b"two") == "served");
    assert!(rt; hears(rt.alloc(), &second, "two")?);
    assert!(rt; serves(&mut links, b"third", b"three") == "end");
    assert!(rt; links.faults() == 0);
    Ok(())
}

#[test]
fn sending_ends_before_the_connection(rt: HostRuntime) -> io::Result<()> {
    let mut links = TcpLinks::bind(&rt, 0, 1)?;
    let mut stream = client(&rt, links.port()?, b"first")?;
    match links.accept() {
        Accepted::Link(mut source, mut sink) => {
            assert!(rt; writes(&mut sink, b"one"));
            drop(sink);
            assert!(rt; hears(rt.alloc(), &stream, "one")?);
            assert!(rt; brings(&mut source, b"first"));
            stream.write_all(b"late")?;
            assert!(rt; brings(&mut source, b"late"));
        }
        _ => panic!(rt; "no link"),
    }
    Ok(())
}

#[test]
fn listens_in_another_thread(rt: HostRuntime) -> io::Result<()> {
    let mut links = TcpLinks::bind(&rt, 0, 1)?;
    let port = links.port()?;
    match thread::spawn(&rt, move || serves(&mut links, b"first", b"one")) {
        Ok(child) => {
            let stream = client(&rt, port, b"first")?;
            assert!(rt; hears(rt.alloc(), &stream, "one")?);
            assert!(rt; child.join(&rt) == "served");
        }
        Err(_) => panic!(rt; "no thread"),
    }
    Ok(())
}

#[test]
fn two_listeners_get_no_port_together(rt: HostRuntime) -> io::Result<()> {
    let links = TcpLinks::bind(&rt, 0, 1)?;
    assert!(rt; TcpLinks::bind(&rt, links.port()?, 1).is_err());
    Ok(())
}

#[test]
fn no_links_are_the_end_at_once(rt: HostRuntime) -> io::Result<()> {
    let mut links = TcpLinks::bind(&rt, 0, 0)?;
    assert!(rt; serves(&mut links, b"first", b"one") == "end");
    Ok(())
}
