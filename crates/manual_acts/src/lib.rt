//! An office takes the acts that the manual tells, and comes to their books.
#![tactic(auto)]

mod laws;

pub use laws::{days_are_dates, page_is_taken, year_is_taken};
