//! The lines of a book as CSV.
#![tactic(auto)]

mod export;

pub use export::lines_csv;
