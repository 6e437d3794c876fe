//! What an office is asked, in JSON: calls, lines of a batch and questions are read.
#![tactic(auto)]

mod asking;
mod calling;
mod line;

pub use calling::call_of_bytes;
pub use line::{BatchLine, line_of_bytes};
