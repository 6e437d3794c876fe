//! What the days of a month take of an amount for the whole month.
#![tactic(auto)]

mod laws;
mod shares;

pub use laws::shares_total_their_part;
pub use shares::{share, share_run};
