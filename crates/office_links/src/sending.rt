//! The sending side of a connection.

use office_io::{Put, Sink};
use std::io::Write;
use std::marker::Model;
use std::net::{Shutdown, TcpStream};

/// The sending side of a connection, which ends where it is hung up or goes out of use: the peer then comes to the end of
/// what was sent, though the connection itself may still be open.
///
/// Each error is a fault, and so is a write that takes nothing. Contracts see the count of faults.
pub struct Sending {
    stream: TcpStream,
    faults: u64,
}

impl Model for Sending {
    ghost use Rattle.std.specs.Prelude.{ℕ};

    ghost Value = { ℕ };

    ghost view = { λ sending. sending.faults };
}

impl Sending {
    ghost use Rattle.std.specs.Prelude.{◌≡◌};

    pub(crate) fn new(stream: TcpStream) -> Sending
        ensures { result ≡ 0 }
    {
        Sending { stream, faults: 0 }
    }

    /// Ends it.
    pub(crate) fn end(&mut self)
        ensures { self.new ≡ self.old }
    {
        // A connection that the peer has closed has nothing left to end.
        let _ = self.stream.shutdown(Shutdown::Write);
    }
}

impl Drop for Sending {
    fn drop(self) {
        let Sending { stream, faults: _ } = self;
        let _ = stream.shutdown(Shutdown::Write);
    }
}

impl Sink for Sending {
    ghost use Rattle.std.specs.Prelude.{None};

    ghost held = { λ faults. None };

    ghost faults = { λ faults. faults };

    fn write(&mut self, piece: &[u8]) -> Put {
        match self.stream.write(piece) {
            Ok(count) if count > 0 => Put::Bytes(count),
            _ => {
                self.faults = self.faults.saturating_add(1);
                Put::Failed
            }
        }
    }
}
