//! The text that stands for a command in a book: a command is written in JSON, and so is its text.
#![tactic(auto)]

mod applicants;
mod body;
mod command;
mod property;

pub use body::body_of_command;
