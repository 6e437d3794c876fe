//! A keeper of a book with a bad row, for tests.

use crate::{Committed, Keeper, Loaded};
use book_rows::{Batch, Table};
use std::alloc::Global;
use std::marker::Model;

/// A keeper in memory of a book with a bad row, which it always tells. It keeps nothing, and never fails.
///
/// Contracts see it as that row.
#[derive(Debug, Drop)]
pub struct DamagedKeeper {
    table: Table,
    act: u32,
}

impl Model for DamagedKeeper {
    ghost use Rattle.keeper_core.specs.Keeping.{BadRow};

    ghost Value = { BadRow };

    ghost view = { λ keeper. record { table = keeper.table; act = keeper.act } };
}

impl DamagedKeeper {
    ghost use Rattle.std.specs.Prelude.{◌≡◌};

    /// A keeper whose first bad row is of that table and act.
    pub fn new(table: Table, act: u32) -> DamagedKeeper
        ensures { result ≡ record { table = table; act = act } }
    {
        DamagedKeeper { table, act }
    }
}

impl Keeper for DamagedKeeper {
    ghost use Rattle.std.specs.Prelude.{◌≡◌, ⊤};

    ghost holds = { λ _ _. ⊥ };

    ghost bad = { λ keeper row. row ≡ keeper };

    ghost faults = { λ _. 0 };

    ghost is_well = { λ _. ⊤ };

    ghost tells_crash = { λ _. ⊥ };

    ghost leaves = { λ _ _. ⊥ };

    fn load(&mut self, _alloc: Global) -> Loaded {
        Loaded::BadRow {
            table: self.table,
            act: self.act,
        }
    }

    fn commit(&mut self, _alloc: Global, _batch: &Batch) -> Committed {
        Committed::NoMemory
    }
}
