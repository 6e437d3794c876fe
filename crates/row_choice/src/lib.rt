//! Which of some rows stands by an order, and the first day on which a test passes: definitions, and their laws.
#![tactic(auto)]

mod laws;

pub use laws::{first_day_is_a_beginning, latest_is_last};
