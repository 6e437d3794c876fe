//! What a keeper does, and what it tells.

use book_rows::{Batch, Table, Tables};
use std::alloc::Global;

/// What a load gave.
#[derive(Debug, Drop)]
pub enum Loaded {
    /// The rows that are kept.
    Rows(Tables),
    /// The first stored row that has a number out of its range, in the order of acts, records, lines.
    BadRow {
        table: Table,
        /// The row's act, and 0 where that is out of its range.
        act: u32,
    },
    /// Nothing, and a fault was counted.
    Failed,
    /// Nothing, since memory ran out.
    NoMemory,
}

/// What a commit did.
#[derive(Clone, Copy, Debug, PartialEq, Eq)]
pub enum Committed {
    /// The batch is kept.
    Done,
    /// Nothing, and a fault was counted.
    Failed,
    /// Nothing, since memory ran out.
    NoMemory,
}

/// What keeps a book.
///
/// A keeper may tell the book that it keeps, or in its place the first bad row, and it may tell what a crash would
/// leave. What it tells after a call it told before. A keeper that is well goes on to tell its book. It counts its faults,
/// and no call answers `Failed` with no new fault. The count stops at its last value.
pub trait Keeper {
    ghost use Rattle.std.specs.Prelude.{◌≡◌, ℕ, Option, IsTrue};
    ghost use Rattle.std.specs.Str.{is_utf8};
    ghost use Rattle.book_rows.specs.Book.{Book, IsBatch, IsBefore};
    ghost use Rattle.keeper_core.specs.Keeping.{BadRow, Keeps, Gives, LoadCause, Commits, CommitsOn, CommitCause, CommitCrash};

    // It tells that this is the book.
    ghost holds: { Self → Book → Type 0 };

    // In place of a book, it tells that this is the first bad row.
    ghost bad: { Self → BadRow → Type 0 };

    ghost faults: { Self → ℕ };

    // Nothing from outside has stopped it for good.
    ghost is_well: { Self → Type 0 };

    // It tells what a crash now may leave.
    ghost tells_crash: { Self → Type 0 };

    // A crash now may leave this book; or, with None, what is no book.
    ghost leaves: { Self → Option Book → Type 0 };

    /// Gives the rows that are kept.
    fn load(&mut self, alloc: Global) -> Loaded
        ensures gives { Gives (holds self.new) (bad self.new) result }
        ensures kept { Keeps (holds self.old) (holds self.new) }
        ensures kept_row { Keeps (bad self.old) (bad self.new) }
        ensures well { is_well self.new → is_well self.old }
        ensures goes_on { is_well self.new → Keeps (holds self.new) (holds self.old) }
        ensures cause { LoadCause (faults self.old) (faults self.new) result }
        ensures told { tells_crash self.new → tells_crash self.old }
        ensures crash { tells_crash self.new → Keeps (leaves self.old) (leaves self.new) };

    /// Keeps the rows of one more act, all of them or none.
    fn commit(&mut self, alloc: Global, batch: &Batch) -> Committed
        requires batch { IsBatch batch.now }
        requires next { (book : Book) → holds self.old book → IsBefore book batch.now.act.n }
        requires text { IsTrue (is_utf8 batch.now.act.body) }
        ensures leaves { Commits (holds self.old) (holds self.new) batch.now result }
        ensures kept_row { Keeps (bad self.old) (bad self.new) }
        ensures well { is_well self.new → is_well self.old }
        ensures goes_on { is_well self.new → CommitsOn (holds self.old) (holds self.new) batch.now result }
        ensures cause { CommitCause (faults self.old) (faults self.new) result }
        ensures told { tells_crash self.new → tells_crash self.old }
        ensures crash { tells_crash self.new → CommitCrash (holds self.old) (leaves self.old) (holds self.new) (leaves self.new) batch.now result };
}
