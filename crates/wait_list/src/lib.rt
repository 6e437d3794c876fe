//! The applicants who wait for a unit, and who is next for one.
#![tactic(auto)]

mod applicant;
mod ask;
mod laws;
mod list;
mod next;
mod rank;
mod ranking;
mod targets;

pub use applicant::Applicant;
pub use ask::{Ask, Candidate};
pub use laws::{next_is_plain, wanted_is_plain};
pub use list::WaitList;
pub use rank::best_rank;
pub use targets::{Targets, wants_extremely_low};
