//! An import: the rows of a text of applicants are answered one after another, and each new act is kept before its reply is
//! written.
#![tactic(auto)]

mod row;
mod rows;

pub use rows::answer_rows;
