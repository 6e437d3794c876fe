//! The lines of a source, one after another, each of at most so many bytes.
#![tactic(auto)]

mod laws;
mod more;
mod reader;

pub use laws::lines_are_the_bytes;
pub use reader::{LineReader, Next};
