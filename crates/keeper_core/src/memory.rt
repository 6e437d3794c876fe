//! A keeper in memory.

use crate::copies::copy_of_tables;
use crate::{Committed, Keeper, Loaded};
use book_rows::{Batch, Tables};
use plain_data::NoMemory;
use std::alloc::Global;
use std::marker::Model;

/// A keeper in memory, which never fails and always tells its book.
///
/// Contracts see it as that book.
#[derive(Debug, Drop)]
pub struct MemoryKeeper {
    tables: Tables,
}

impl Model for MemoryKeeper {
    ghost use Rattle.book_rows.specs.Book.{Book, book_of};

    ghost Value = { Book };

    ghost view = { λ keeper. book_of keeper.tables };
}

impl MemoryKeeper {
    ghost use Rattle.std.specs.Prelude.{◌≡◌, OnOk, OnErr};
    ghost use Rattle.book_rows.specs.Book.{book_of, empty_book, appended};

    /// A keeper of an empty book.
    pub fn new(alloc: Global) -> MemoryKeeper
        ensures { result ≡ empty_book }
    {
        MemoryKeeper {
            tables: Tables::new(alloc),
        }
    }

    /// A keeper of these tables.
    pub fn with(tables: Tables) -> MemoryKeeper
        ensures { result ≡ book_of tables }
    {
        MemoryKeeper { tables }
    }

    /// The tables that it keeps.
    pub fn tables(&self) -> &Tables
        ensures { book_of result.now ≡ self.now }
    {
        &self.tables
    }

    /// The tables that it keeps.
    pub fn into_tables(self) -> Tables
        ensures { book_of result ≡ self }
    {
        let MemoryKeeper { tables } = self;
        tables
    }

    /// The faults so far: none.
    pub fn faults(&self) -> u64
        ensures { result ≡ 0 }
    {
        0
    }

    // Appends all rows of the batch or none.
    pub(crate) fn append(&mut self, alloc: Global, batch: &Batch) -> Result<(), NoMemory>
        ensures done { OnOk result (self.new ≡ appended self.old batch.now) }
        ensures undone { OnErr result (self.new ≡ self.old) }
    {
        let copy = batch.try_clone(alloc)?;
        self.tables.reserve(batch)?;
        self.tables.append(copy);
        Ok(())
    }
}

impl Keeper for MemoryKeeper {
    ghost use Rattle.std.specs.Prelude.{⊤};
    ghost use Rattle.keeper_core.specs.Keeping.{Only};

    ghost holds = { Only };

    ghost bad = { λ _ _. ⊥ };

    ghost faults = { λ _. 0 };

    ghost is_well = { λ _. ⊤ };

    ghost tells_crash = { λ _. ⊥ };

    ghost leaves = { λ _ _. ⊥ };

    fn load(&mut self, alloc: Global) -> Loaded {
        match copy_of_tables(alloc, &self.tables) {
            Ok(tables) => Loaded::Rows(tables),
            Err(NoMemory) => Loaded::NoMemory,
        }
    }

    fn commit(&mut self, alloc: Global, batch: &Batch) -> Committed {
        match self.append(alloc, batch) {
            Ok(()) => Committed::Done,
            Err(NoMemory) => Committed::NoMemory,
        }
    }
}
