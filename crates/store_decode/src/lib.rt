//! The rows of a book's file, each of what its columns hold; or in their place the first row with a cell that isn't.
#![tactic(auto)]

mod read;
mod tables;

pub use read::ReadRows;
pub use tables::narrowed;
