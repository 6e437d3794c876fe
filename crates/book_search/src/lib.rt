//! Records and lines of a book by their act, and acts by their request, without a scan.
#![tactic(auto)]

mod by_act;
mod by_request;
mod laws;

pub use by_act::{lines_of_act, record_of_act};
pub use by_request::{act_key, act_of_request};
pub use laws::book_stays_in_order;
