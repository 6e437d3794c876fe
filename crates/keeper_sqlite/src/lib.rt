//! A keeper of a book in a file, over `sqlite`.
#![tactic(auto)]

mod keeper;
mod loading;
mod own;

pub use keeper::SqliteKeeper;
