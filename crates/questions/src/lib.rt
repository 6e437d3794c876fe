//! The seven questions that an office answers, and which of them each is.
#![tactic(auto)]

mod kind;
mod question;

pub use kind::QuestionKind;
pub use question::Question;
