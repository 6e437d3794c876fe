//! The messages of a source of bytes, one after another, however its reads cut them.
#![tactic(auto)]

mod buffer;
mod inbox;
mod laws;
mod message;
mod next;

pub use inbox::Inbox;
pub use laws::{cut_in_one_way, settled_by_the_front};
pub use message::{Incoming, Message};
