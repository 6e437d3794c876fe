//! Runs of the program over streams in memory, for tests alone.
//!
//! Nothing here has a contract, so a test sees a run as a plain status and text, and not by the clauses of `run`.
#![tactic(auto)]

mod acts;
mod runs;

pub use acts::{act, five_months, lines};
pub use runs::{Told, Trial, ran, ran_by, without_fault};
