//! Commands are read: of their values in JSON, and of the texts that stand for them in a book.
#![tactic(auto)]

mod applicants;
mod body;
mod command;
mod forms;
mod property;

pub use body::{BodyFault, command_of_body};
pub use command::command_of_value;
pub use command_body::body_of_command;
