//! What it takes to do each act of a book's tables again, and that this tells which tables are an office's own.
#![tactic(auto)]

mod calls;
mod compare;
mod laws;
mod near;
mod stored_rows;
mod strays;
mod stretch;

pub use book_search;
pub use calls::call_of;
pub use command_text;
pub use laws::{reached_is_valid, replay_is_kept, valid_is_reached};
pub use office_laws;
pub use stored_rows::StoredRows;
