//! The office of one clerk: what it does with a call, what it keeps, and which books it opens.
#![tactic(auto)]

mod append;
mod asking;
mod drafting;
mod judged;
mod office;
mod opening;
mod plan;
mod replaying;
mod reply;
mod reserve;

pub use book_replay::{command_text, office_laws};
pub use judged::{Judged, Judgment, Step};
pub use office::Office;
pub use office_acts;
pub use office_answers;
pub use office_answers::office_step::{
    Application, Call, Capacity, Closed, Done, Fault, Made, Named, Refusal,
};
pub use office_answers::{
    Admissions, Answer, Asked, DueDay, HouseholdSummary, Question, Reply, Voucher, admission_order,
    office_refusals, office_register, office_step,
};
pub use opening::OpenFault;
