//! A made office, to try things on: what its clerk asks over two years, as the lines of a batch.
#![tactic(auto)]

mod act;
mod changes;
mod dates;
mod each;
mod entering;
mod households;
mod lines;
mod months;
mod opening;

pub use act::MadeAct;
pub use lines::{made_line, made_lines};
pub use months::made_acts;
