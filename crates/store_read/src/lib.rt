//! The queries on a book's file: the rows of its three tables as they are stored, read one after another.
#![tactic(auto)]

mod asking;

pub use asking::{AskFault, AskedRows, ask_tables};
