//! The application for the payments of a month, as it is printed.
#![tactic(auto)]

mod form;
mod households;
mod laws;
mod schedules;
mod voucher;

pub use laws::forms_tell_each_line;
pub use voucher::voucher_text;
