//! The forms of commands: how a command stands in JSON, the text that stands for it in a book, and that the text is read
//! again as that command.
#![tactic(auto)]

mod holdable;
mod kind;
mod laws;

pub use holdable::held_command;
pub use kind::{ChangeKind, Kind};
pub use laws::bodies_read_back;
