//! The three tables of a book's file: their columns, the texts of the statements on them, what each text means, and the rows
//! of the book as they are stored.
#![tactic(auto)]

mod cells;
mod columns;
mod rows;
mod types;

pub use cells::number_at;
pub use columns::{ACT_COLUMNS, LINE_COLUMNS, RECORD_COLUMNS, SqlColumn};
pub use rows::{StoredRow, act_cells, line_cells, record_cells};
