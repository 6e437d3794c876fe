//! The texts that an office answers with, in JSON: of replies, refusals and answers.
#![tactic(auto)]

mod answer;
mod members;
mod record;
mod refusal;
mod reply;
mod values;
mod voucher;

pub use answer::text_of_answer;
pub use reply::{text_of_bad_form, text_of_reply};
