//! The file of a book: it is opened at a path, and where it isn't, the status tells why.
#![tactic(auto)]

mod opening;
mod statuses;

pub use opening::open_book;
pub use statuses::status_of;
