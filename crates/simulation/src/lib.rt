//! A made office tried: its lines are answered by an office in memory, and what that comes to is summed up.
#![tactic(auto)]

mod answering;
mod summary;
mod trying;

pub use trying::trial;
