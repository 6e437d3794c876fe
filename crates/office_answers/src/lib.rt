//! What an office is asked, what it answers, and what it replies to a call.
#![tactic(auto)]

mod answer;
mod answering;
mod book_lines;
mod due;
mod fiscal_year;
mod households;
mod in_turn;
mod laws;
mod next;
mod reply;
mod vouchers;

pub use admission_order;
pub use admission_order::{office_refusals, office_register, office_step};
pub use answer::{Admissions, Answer, Asked, DueDay, HouseholdSummary, Voucher};
pub use answering::answer_to;
pub use book_lines::BookLines;
pub use laws::{due_list_is_whole, vouchers_total};
pub use questions::Question;
pub use reply::Reply;
