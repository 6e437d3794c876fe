//! Connections over TCP.

use crate::sending::Sending;
use crate::{Accepted, Listener};
use office_io::StreamSource;
use std::io;
use std::marker::Model;
use std::net::{Ipv4Addr, Net, TcpListener, TcpStream};

/// The connections that come over TCP to a port of this machine's own address, so many and no more.
///
/// Each accept that fails is a fault, and so is a connection that can't be set up. It doesn't tell its links, and drops
/// those that are given back, which ends the connection. Contracts see how many links are left and the count of faults.
#[derive(Drop)]
pub struct TcpLinks {
    listener: TcpListener,
    left: u32,
    faults: u64,
}

impl Model for TcpLinks {
    ghost use Rattle.office_links.specs.Links.{Remaining};

    ghost Value = { Remaining };

    ghost view = { λ links. record { left = links.left; faults = links.faults } };
}

impl TcpLinks {
    ghost use Rattle.std.specs.Prelude.{◌≡◌, IfOk};

    /// Listens on that port of 127.0.0.1, for so many links. At port 0 the system picks one.
    pub fn bind<N: Net<Listener = TcpListener, Stream = TcpStream>>(
        net: &N,
        port: u16,
        links: u32,
    ) -> io::Result<TcpLinks>
        ensures { IfOk result (λ bound. bound ≡ record { left = links; faults = 0 }) }
    {
        Ok(TcpLinks {
            listener: TcpListener::bind(net, (Ipv4Addr::LOCALHOST, port))?,
            left: links,
            faults: 0,
        })
    }

    /// The port on which it listens.
    pub fn port(&self) -> io::Result<u16> {
        Ok(self.listener.local_addr()?.port())
    }

    /// The faults so far.
    pub fn faults(&self) -> u64
        ensures { result ≡ self.now.faults }
    {
        self.faults
    }
}

impl Listener for TcpLinks {
    ghost use Rattle.std.specs.Prelude.{None};

    type In = StreamSource<TcpStream>;

    type Out = Sending;

    ghost left = { λ links. links.left };

    ghost links = { λ links. None };

    ghost faults = { λ links. links.faults };

    fn accept(&mut self) -> Accepted<StreamSource<TcpStream>, Sending> {
        if self.left == 0 {
            return Accepted::End;
        }
        match next_connection(&self.listener) {
            Ok((incoming, outgoing)) => {
                self.left -= 1;
                Accepted::Link(StreamSource::new(incoming), outgoing)
            }
            Err(_) => {
                self.faults = self.faults.saturating_add(1);
                Accepted::Failed
            }
        }
    }

    fn hang_up(sink: &mut Sending) {
        sink.end();
    }

    fn done(&mut self, source: StreamSource<TcpStream>, sink: Sending) {
        // The peer reads to the end of what was sent before the connection itself goes.
        drop(sink);
        drop(source);
    }
}

// Both ways of the next connection. Each piece is sent at once, since a response is one piece or two.
fn next_connection(listener: &TcpListener) -> io::Result<(TcpStream, Sending)> {
    let (stream, _) = listener.accept()?;
    let _ = stream.set_nodelay(true);
    let outgoing = Sending::new(stream.try_clone()?);
    Ok((stream, outgoing))
}
