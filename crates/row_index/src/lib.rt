//! An index of rows that only grow in number: by a number of each row, the place where it stands.
#![tactic(auto)]

mod index;
mod laws;

pub use index::{Entry, RowIndex};
pub use laws::{index_finds, index_grows, request_keys_differ};
