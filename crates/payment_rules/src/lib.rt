//! What a family pays for its unit and what the office claims for it.
#![tactic(auto)]

mod figures;
mod rules;

pub use figures::Payment;
pub use rules::{payment, rent_split};
