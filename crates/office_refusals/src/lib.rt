//! Rightful days, what a closing waits for, and what a record is made of, by the tables that they read.
#![tactic(auto)]

mod basis;
mod book;
mod closing;
mod days;
mod lateness;
mod live;
mod made;
mod named;
mod reply;
mod rightful;

pub use basis::{Basis, basis_of};
pub use book::lines_full;
pub use closing::{household_rent_due, next_to_close};
pub use days::act_day;
pub use lateness::overdue;
pub use made::{change_by, continued, entry, rents_in_unit, told_extremely_low};
pub use named::no_household;
pub use office_step;
pub use reply::certified;
pub use rightful::{annual_right, corrected_right, interim_right, resume_right};
