//! What the office claims for its households, month by month: the lines of each closing.
#![tactic(auto)]

mod book;
mod certified;
mod changes;
mod closing;
mod laws;
mod line;
mod lines;
mod starts;
mod sums;
mod touched;

pub use book::LineBook;
pub use certified::certified_amount;
pub use closing::{Closing, close_lines};
pub use laws::{
    certified_stays, lines_name_their_pairs, lines_tell_each_run, number_tells_assistance,
    one_closing_settles, paid_is_the_sum,
};
pub use line::Line;
pub use sums::total;
