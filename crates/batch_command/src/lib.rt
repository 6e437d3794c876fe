//! A batch: the lines of a source are answered one after another, and each new act is kept before its reply is written.
#![tactic(auto)]

mod batch;
mod ending;
mod line;

pub use batch::answer_lines;
pub use clerk_desk;
pub use clerk_desk::office_core;
pub use ending::Ending;
pub use line::{answer_bad_form, answer_call, answer_of_line, write_answer};
