//! Numbers in decimal digits, read of a text.
#![tactic(auto)]

mod reading;

pub use reading::{number_between, numbers_read_back, plain_number_between};
