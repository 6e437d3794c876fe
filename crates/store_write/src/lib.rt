//! The statements that write a book's file: each is a function that says what it does to the three tables, and the rows of an
//! act are written by one transaction.
#![tactic(auto)]

mod inserting;
mod making;
mod writing;

pub use making::make_tables;
pub use writing::write_batch;
