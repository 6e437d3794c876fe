//! The office of one clerk, as a definition: what it does with a call, the refusals in their one order, and the reply.
//!
//! Here stand the definitions and the types that they speak of. The functions that compute them stand above.
#![tactic(auto)]

mod call;
mod fault;
mod heading;
mod known;
mod moving;
mod plain;
mod refusal;
mod reply;
mod rightful;

pub use call::{Call, Capacity};
pub use fault::Fault;
pub use heading::Heading;
pub use known::{Application, Closed, Mover, Request};
pub use moving::MoveIn;
pub use plain::{
    acceptance_is_plain, book_full_is_plain, certified_is_plain, day_range_is_plain,
    disorder_is_plain, facts_rule_is_plain, ineligible_is_plain, name_taken_is_plain,
    no_assistance_is_plain, no_limits_is_plain, no_plan_is_plain, no_rent_is_plain,
    no_such_is_plain, not_live_is_plain, not_next_is_plain, overdue_is_plain, plan_given_is_plain,
    refusal_is_plain, rent_due_is_plain, size_misfit_is_plain, stale_is_plain, unit_taken_is_plain,
    unseen_is_plain, wrong_day_is_plain, wrong_month_is_plain,
};
pub use refusal::{Named, Refusal};
pub use reply::{Done, Made};
pub use rightful::Rightful;
