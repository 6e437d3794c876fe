//! What contracts see of a history: of its book, its passes and its notes.

use book_rows::{ActRow, Batch};
use days_core::Day;
use plain_data::Text;
use record_history::{Dates, Record};
use std::collections::LinkedList;
use voucher_core::Line;

/// The rows of the book on which a desk was opened.
pub struct Opening {
    pub acts: LinkedList<ActRow>,
    pub records: LinkedList<Record>,
    pub lines: LinkedList<Line>,
}

/// What never changes while a desk is open.
pub struct Start {
    pub opening: Opening,
    /// The most acts that the office holds.
    pub most_acts: u32,
    /// The most lines that it holds.
    pub most_lines: u32,
}

/// What is seen of the book.
pub struct BookView {
    pub start: Start,
    /// The rows appended since the desk was opened.
    pub list: LinkedList<ActRow>,
    /// The rows that the keeper was sent since then and did not say it kept.
    pub tried: LinkedList<Batch>,
    /// The number of the next new pass.
    pub next: u32,
    /// The faults that the keeper has counted.
    pub faults: u64,
}

/// What is seen of a pass.
pub struct PassView {
    pub number: u32,
    pub start: Start,
    /// The rows that it knows.
    pub list: LinkedList<ActRow>,
    /// Those of its own calls that the keeper was sent and did not say it kept.
    pub tried: LinkedList<Batch>,
    /// The keeper's faults as its last call found them.
    pub found: u64,
    /// And as that call left them.
    pub left: u64,
}

/// What is seen of a note: what a pass knew when it was written.
pub struct NoteView {
    pub start: Start,
    pub list: LinkedList<ActRow>,
}

/// What is seen of the book while a pass is held.
pub struct HoldingView {
    pub book: BookView,
    /// The pass as it came.
    pub pass: PassView,
    /// The rows appended since it came.
    pub since: LinkedList<ActRow>,
    /// Those that the keeper was sent since then and did not say it kept.
    pub tries: LinkedList<Batch>,
    /// The keeper's faults when it came.
    pub found: u64,
}

/// What one seat of a history knows. No value of it is ever made: it is what contracts say of a seat.
pub enum View {
    /// The history isn't opened yet.
    Blank,
    /// The book, while no pass is held.
    Free(BookView),
    /// The book and the pass that is held.
    Holding(HoldingView),
    /// A pass that isn't held.
    Home(PassView),
    /// A pass that is about to learn what a note says.
    Learning(PassView, NoteView),
    Noted(NoteView),
    /// Two notes that are about to become one.
    Merging(NoteView, NoteView),
    /// What it knew is another seat's now.
    Spent,
}
