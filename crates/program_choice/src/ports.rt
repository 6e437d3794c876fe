//! Ports, and the listeners that listen on them.

use office_links::{Listener, TcpLinks};
use std::net::{Net, TcpListener, TcpStream};

/// What binds ports.
///
/// It says what may come of that, for a port and so many links.
pub trait Ports<L: Listener> {
    ghost use Rattle.std.specs.Prelude.{◌≡◌, ℕ, IfSome};
    ghost use Rattle.std.specs.declared.option.Option.{Option};

    // This may come of binding the port for so many links: its listener, or None.
    ghost binds: { Self → ℕ → ℕ → Option L → Type 0 };

    /// Has a listener listen on that port, for so many links. None: no port is bound.
    fn bind(&self, port: u16, links: u32) -> Option<L>
        ensures binds { binds self.now port links result }
        ensures left { IfSome result (λ bound. L.left bound ≡ links) };
}

/// The ports of this machine's own address.
#[derive(Drop)]
pub struct TcpPorts<'a, N> {
    net: &'a N,
}

impl<'a, N> TcpPorts<'a, N> {
    ghost use Rattle.std.specs.Prelude.{◌≡◌};

    /// The ports that this handle binds.
    pub fn new(net: &'a N) -> TcpPorts<'a, N>
        ensures { result.net.now ≡ net.now }
    {
        TcpPorts { net }
    }
}

impl<'a, N: Net<Listener = TcpListener, Stream = TcpStream>> Ports<TcpLinks> for TcpPorts<'a, N> {
    ghost use Rattle.std.specs.Prelude.{◌≡◌, IfSome};

    // No contract sees on which port a listener listens.
    ghost binds = { λ ports port links found. IfSome found (λ bound. bound ≡ record { left = links; faults = 0 }) };

    fn bind(&self, port: u16, links: u32) -> Option<TcpLinks> {
        TcpLinks::bind(self.net, port, links).ok()
    }
}
