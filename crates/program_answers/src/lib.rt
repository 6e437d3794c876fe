//! How the program's book is opened and its answers end: what `run` and a server have in common.
#![tactic(auto)]

mod ending;
mod opening;

pub use ending::finish;
pub use opening::{LARGEST, tell_unopened};
