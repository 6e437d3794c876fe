//! The office of one clerk and the keeper of its book: a new act is kept before the clerk is told of it.
#![tactic(auto)]

mod opening;
mod serving;

pub use office_core;
pub use office_core::office_answers;
pub use opening::{DeskFault, open_office};
pub use serving::{Booking, book_call, serve};
