//! What the words of the command line choose: a run of the program, or a server of a port.
#![tactic(auto)]

mod ports;
mod running;

pub use ports::{Ports, TcpPorts};
pub use running::{RunEnd, run_words};
