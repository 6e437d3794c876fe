//! Workers at connections over TCP.

use crate::seat::Echo;
use link_workers::serve_all;
use office_links::TcpLinks;
use std::alloc::Global;
use std::io;
use std::io::Write;
use std::net::{Ipv4Addr, Net, Shutdown, TcpListener, TcpStream};
use std::sync::{Mutex, Wait};
use std::thread::{Threads, join, sleep};
use std::time::{Clock, Duration};

/// A connection to that port, with these bytes sent and then the end.
fn client<N: Net<Listener = TcpListener, Stream = TcpStream>>(
    net: &N,
    port: u16,
    asked: &[u8],
) -> io::Result<TcpStream> {
    let mut stream = TcpStream::connect(net, (Ipv4Addr::LOCALHOST, port))?;
    stream.write_all(asked)?;
    stream.shutdown(Shutdown::Write)?;
    Ok(stream)
}

/// Whether these bytes and then the end come to a client.
fn hears(alloc: Global, stream: &TcpStream, wanted: &str) -> io::Result<bool> {
    let mut reader = stream;
    Ok(io::read_to_string(alloc, &mut reader)?.as_str() == wanted)
}

#[test]
fn connections_are_served_by_two_workers(rt: HostRuntime) -> io::Result<()> {
    let links = TcpLinks::bind(&rt, 0, 3)?;
    let port = links.port()?;
    let one = client(&rt, port, b"one")?;
    let two = client(&rt, port, b"two")?;
    let three = client(&rt, port, b"three")?;
    let served = Mutex::new(0);
    let mut seats = [Echo::new(&rt, &served), Echo::new(&rt, &served)];
    let ended = serve_all(&rt, rt.alloc(), links, &mut seats, 0);
    assert!(rt; !ended.failed && ended.listener.faults() == 0);
    assert!(rt; hears(rt.alloc(), &one, "one")?);
    assert!(rt; hears(rt.alloc(), &two, "two")?);
    assert!(rt; hears(rt.alloc(), &three, "three")?);
    Ok(())
}

/// Two clients, of which the second comes only after the first has come to its end. The first is slow to send, so that
/// the other worker waits for the second meanwhile.
fn one_after_another<N: Net<Listener = TcpListener, Stream = TcpStream> + Clock>(
    net: &N,
    alloc: Global,
    port: u16,
) -> io::Result<bool> {
    let mut one = TcpStream::connect(net, (Ipv4Addr::LOCALHOST, port))?;
    sleep(net, Duration::from_millis(100));
    one.write_all(b"one")?;
    one.shutdown(Shutdown::Write)?;
    let first = hears(alloc, &one, "one")?;
    let two = client(net, port, b"two")?;
    Ok(first && hears(alloc, &two, "two")?)
}

/// Serves these links by two workers, and says whether no accept failed.
fn by_two<R: Threads + Wait + Sync>(rt: &R, alloc: Global, links: TcpLinks) -> bool {
    let served = Mutex::new(0);
    let mut seats = [Echo::new(rt, &served), Echo::new(rt, &served)];
    let ended = serve_all(rt, alloc, links, &mut seats, 0);
    !ended.failed
}

// A worker gives the first link back while the other waits for the second.
#[test]
fn a_peer_comes_to_its_end_before_the_next_one_comes(rt: HostRuntime) -> io::Result<()> {
    let links = TcpLinks::bind(&rt, 0, 2)?;
    let port = links.port()?;
    let alloc = rt.alloc();
    let (served, heard) = join(
        &rt,
        || by_two(&rt, alloc, links),
        || one_after_another(&rt, alloc, port),
    );
    assert!(rt; served);
    assert!(rt; heard?);
    Ok(())
}
