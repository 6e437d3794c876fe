//! Where the links of a server come from: listeners in memory and over TCP.
#![tactic(auto)]

mod inputs;
mod link;
mod listener;
mod memory;
mod sending;
mod tcp;

pub use inputs::listener_of_inputs;
pub use link::Link;
pub use listener::{Accepted, Listener};
pub use memory::MemoryListener;
pub use sending::Sending;
pub use tcp::TcpLinks;
