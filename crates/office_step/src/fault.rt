//! Where the tables of a book are not an office's.

use book_rows::Table;

/// Where the tables of a book go wrong.
#[derive(Clone, Copy, Debug, PartialEq, Eq)]
pub struct Fault {
    pub table: Table,
    /// The number of the act, as its row tells it.
    pub act: u32,
}
