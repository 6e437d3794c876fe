//! The keeper of a file.

use crate::loading::{is_want_of_memory, load_noting};
use book_rows::Batch;
use keeper_core::{Committed, Keeper, Loaded};
use sqlite::{Alter, Connection};
use std::alloc::Global;
use std::marker::Model;
use store_write::write_batch;

/// A keeper of a book in a file.
///
/// Contracts see the connection, whether something may touch the three tables, and the faults so far.
#[derive(Drop)]
pub struct SqliteKeeper<S: Alter> {
    conn: Connection<S>,
    is_beside: bool,
    faults: u64,
}

impl<S: Alter> Model for SqliteKeeper<S> {
    ghost use Rattle.keeper_sqlite.specs.Told.{Kept, kept_code};

    ghost Value = { Kept S };

    ghost coded = { kept_code S.code };

    ghost view = { λ keeper. record { file = keeper.conn; is_beside = keeper.is_beside; faults = keeper.faults } };
}

impl<S: Alter> SqliteKeeper<S> {
    ghost use Rattle.std.specs.Prelude.{◌≡◌, false};
    ghost use Rattle.office_io.specs.Outside.{Faulted};

    /// Takes a connection. It runs no statement.
    pub fn adopt(connection: Connection<S>) -> SqliteKeeper<S>
        ensures { result ≡ record { file = connection; is_beside = false; faults = 0 } }
    {
        SqliteKeeper {
            conn: connection,
            is_beside: false,
            faults: 0,
        }
    }

    /// Gives the connection back.
    pub fn release(self) -> Connection<S>
        ensures { result ≡ self.file }
    {
        let SqliteKeeper { conn, .. } = self;
        conn
    }

    /// The faults so far.
    pub fn faults(&self) -> u64
        ensures { result ≡ self.now.faults }
    {
        self.faults
    }

    /// Whether a load found something else in the file than the three tables as they are made and what doesn't touch them. It
    /// is served all the same.
    pub fn is_beside(&self) -> bool
        ensures { result ≡ self.now.is_beside }
    {
        self.is_beside
    }

    fn count_fault(&mut self)
        ensures kept { self.new ≡ record self.old { faults = self.new.faults } }
        ensures fault { Faulted self.old.faults self.new.faults }
    {
        self.faults = self.faults.saturating_add(1);
    }
}

impl<S: Alter> Keeper for SqliteKeeper<S> {
    ghost use Rattle.std.specs.Prelude.{◌≡◌, IsTrue};
    ghost use Rattle.std.specs.Str.{is_utf8};
    ghost use Rattle.sqlite.specs.Held.{state};
    ghost use Rattle.book_rows.specs.Book.{Book, IsBatch, IsBefore};
    ghost use Rattle.keeper_core.specs.Keeping.{Keeps, Gives, LoadCause, Commits, CommitsOn as AppendsOn, CommitCause, CommitCrash};
    ghost use Rattle.keeper_sqlite.specs.Told.{Holds, HoldsBad, IsWell, TellsCrash, CrashLeaves, Notes, GoesOn, CommitsOn, StaysOpen, LoadFailsByFault, FailsByFault, LeavesBooks, CommitsBooks};

    ghost holds = { λ keeper. Holds (state S.Store keeper.file) keeper.is_beside };

    ghost bad = { λ keeper. HoldsBad (state S.Store keeper.file) keeper.is_beside };

    ghost faults = { λ keeper. keeper.faults };

    ghost is_well = { λ keeper. IsWell (state S.Store keeper.file) keeper.is_beside };

    ghost tells_crash = { λ keeper. TellsCrash (state S.Store keeper.file) keeper.is_beside };

    ghost leaves = { λ keeper. CrashLeaves (state S.Store keeper.file) };

    // The first eight clauses are the trait's. The others say when the flag is raised, and look forward: what is told is
    // told on, only a fault shuts the connection or fails the load of what was told, and a crash leaves a book's file.
    fn load(&mut self, alloc: Global) -> Loaded
        ensures gives { Gives (Holds (state S.Store self.new.file) self.new.is_beside) (HoldsBad (state S.Store self.new.file) self.new.is_beside) result }
        ensures kept { Keeps (Holds (state S.Store self.old.file) self.old.is_beside) (Holds (state S.Store self.new.file) self.new.is_beside) }
        ensures kept_row { Keeps (HoldsBad (state S.Store self.old.file) self.old.is_beside) (HoldsBad (state S.Store self.new.file) self.new.is_beside) }
        ensures well { IsWell (state S.Store self.new.file) self.new.is_beside → IsWell (state S.Store self.old.file) self.old.is_beside }
        ensures tells_on { IsWell (state S.Store self.new.file) self.new.is_beside → Keeps (Holds (state S.Store self.new.file) self.new.is_beside) (Holds (state S.Store self.old.file) self.old.is_beside) }
        ensures cause { LoadCause self.old.faults self.new.faults result }
        ensures told { TellsCrash (state S.Store self.new.file) self.new.is_beside → TellsCrash (state S.Store self.old.file) self.old.is_beside }
        ensures crash { TellsCrash (state S.Store self.new.file) self.new.is_beside → Keeps (CrashLeaves (state S.Store self.old.file)) (CrashLeaves (state S.Store self.new.file)) }
        ensures notes { Notes (state S.Store self.old.file).now.schema self.old.is_beside self.new.is_beside }
        ensures goes_on { GoesOn (state S.Store self.old.file) self.old.is_beside (state S.Store self.new.file) self.new.is_beside }
        ensures stays_open { StaysOpen (state S.Store self.old.file) (state S.Store self.new.file) }
        ensures failed { LoadFailsByFault (state S.Store self.old.file) self.old.is_beside (state S.Store self.new.file) result }
        ensures left { LeavesBooks (state S.Store self.old.file) self.old.is_beside → LeavesBooks (state S.Store self.new.file) self.new.is_beside }
        ensures found { (book : Book) → Holds (state S.Store self.new.file) self.new.is_beside book → LeavesBooks (state S.Store self.new.file) self.new.is_beside }
    {
        match load_noting(&mut self.conn, &mut self.is_beside, alloc) {
            Ok(loaded) => loaded,
            Err(error) => {
                if is_want_of_memory(&error) {
                    return Loaded::NoMemory;
                }
                self.count_fault();
                Loaded::Failed
            }
        }
    }

    // The first seven clauses are the trait's. The others leave the flag, and look forward: what is told is told on, after
    // Done with the batch, only a fault shuts the connection or fails a batch that the file takes, and a crash leaves a
    // book's file.
    fn commit(&mut self, _alloc: Global, batch: &Batch) -> Committed
        requires batch { IsBatch batch.now }
        requires next { (book : Book) → Holds (state S.Store self.old.file) self.old.is_beside book → IsBefore book batch.now.act.n }
        requires text { IsTrue (is_utf8 batch.now.act.body) }
        ensures leaves { Commits (Holds (state S.Store self.old.file) self.old.is_beside) (Holds (state S.Store self.new.file) self.new.is_beside) batch.now result }
        ensures kept_row { Keeps (HoldsBad (state S.Store self.old.file) self.old.is_beside) (HoldsBad (state S.Store self.new.file) self.new.is_beside) }
        ensures well { IsWell (state S.Store self.new.file) self.new.is_beside → IsWell (state S.Store self.old.file) self.old.is_beside }
        ensures tells_on { IsWell (state S.Store self.new.file) self.new.is_beside → AppendsOn (Holds (state S.Store self.old.file) self.old.is_beside) (Holds (state S.Store self.new.file) self.new.is_beside) batch.now result }
        ensures cause { CommitCause self.old.faults self.new.faults result }
        ensures told { TellsCrash (state S.Store self.new.file) self.new.is_beside → TellsCrash (state S.Store self.old.file) self.old.is_beside }
        ensures crash { TellsCrash (state S.Store self.new.file) self.new.is_beside → CommitCrash (Holds (state S.Store self.old.file) self.old.is_beside) (CrashLeaves (state S.Store self.old.file)) (Holds (state S.Store self.new.file) self.new.is_beside) (CrashLeaves (state S.Store self.new.file)) batch.now result }
        ensures notes { self.new.is_beside ≡ self.old.is_beside }
        ensures goes_on { CommitsOn (state S.Store self.old.file) self.old.is_beside (state S.Store self.new.file) self.new.is_beside batch.now result }
        ensures stays_open { StaysOpen (state S.Store self.old.file) (state S.Store self.new.file) }
        ensures failed { FailsByFault (state S.Store self.old.file) self.old.is_beside (state S.Store self.new.file) batch.now result }
        ensures left { CommitsBooks (state S.Store self.old.file) self.old.is_beside (state S.Store self.new.file) self.new.is_beside result }
    {
        match write_batch(&mut self.conn, batch) {
            Ok(()) => Committed::Done,
            Err(error) => {
                if is_want_of_memory(&error) {
                    return Committed::NoMemory;
                }
                self.count_fault();
                Committed::Failed
            }
        }
    }
}
