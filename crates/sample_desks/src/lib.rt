//! Desks that tests begin with, on the book of a keeper in memory.
//!
//! It is for tests alone. Where something can't be had, or isn't as it should be, the call says so by `None`, `false` or an
//! error, and the test fails.
#![tactic(auto)]

mod calls;
mod desks;

pub use calls::{act_of, begun_tables, book_act, call_of, outcome_of};
pub use desks::{acts_kept, desk, let_go};
