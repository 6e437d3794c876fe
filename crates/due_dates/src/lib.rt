//! The days on which certifications may take effect, and when a household is overdue.
#![tactic(auto)]

mod due;
mod lateness;
mod laws;
mod review;
mod rightful;
mod stale;

pub use due::Due;
pub use lateness::overdue;
pub use laws::{
    annuals_begin_with_the_next_anniversary, annuals_leave_three_months,
    assistance_resumes_with_a_month, gross_changes_begin_when_rents_are_stale,
    interims_follow_their_table, rents_are_stale_where_others_stand,
};
pub use review::{gross_day, rent_due_day};
pub use rightful::rightful_day;
