//! The office program over its words, a source, a sink, a clock and the keeper of its book.
#![tactic(auto)]

mod batch;
mod import;
mod made;
mod program;
mod report;
mod task;

pub use batch_command::{clerk_desk, office_core};
pub use program::run;
