//! Texts of labelled lines and of columns of a fixed width.
#![tactic(auto)]

mod columns;
mod parts;

pub use columns::{push_left, push_right};
pub use parts::{amount_text, number_text, push, push_labelled};
