//! One history for the sessions of a shared desk: what each may know of it, the rule that holds between any two steps,
//! and the steps.
#![tactic(auto)]

mod holding;
mod laws;
mod merging;
mod noting;
mod opening;
mod rule;
mod views;

pub use holding::{append, come_in, go_back, look, write_try};
pub use laws::{
    entries_are_those_of_the_number, held_books_grow, new_numbers_have_no_entries,
    notes_are_learned, one_begins_the_other, others_stay, passes_go_on,
};
pub use merging::merge;
pub use noting::{finish, learn, write_note};
pub use opening::{NewHistory, hand_out, new_history, open_book};
pub use rule::{HistoryBadge, HistorySeat, HistoryTable, OneHistory, SharedHistory};
pub use views::{BookView, HoldingView, NoteView, Opening, PassView, Start, View};
