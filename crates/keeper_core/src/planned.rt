//! A keeper that fails by plan, for tests.

use crate::{Committed, Keeper, Loaded, MemoryKeeper};
use book_rows::{Batch, Tables};
use plain_data::NoMemory;
use std::alloc::Global;
use std::marker::Model;

// Which calls fail, and how many calls and faults there were.
#[derive(Debug, Drop)]
struct Plan {
    failing: Vec<u64>,
    calls: u64,
    faults: u64,
}

impl Model for Plan {
    ghost use Rattle.keeper_core.specs.Planned.{FaultPlan};

    ghost Value = { FaultPlan };

    ghost view = { λ plan. record { failing = plan.failing.items; calls = plan.calls; faults = plan.faults } };
}

impl Plan {
    ghost use Rattle.std.specs.Prelude.{◌≡◌};
    ghost use Rattle.office_io.specs.Outside.{Faulted};
    ghost use Rattle.keeper_core.specs.Planned.{is_failing, called, faulted};

    fn new(failing: Vec<u64>) -> Plan
        ensures { result ≡ record { failing = failing.items; calls = 0; faults = 0 } }
    {
        Plan {
            failing,
            calls: 0,
            faults: 0,
        }
    }

    fn is_failing(&self) -> bool
        ensures { result ≡ is_failing self.now }
    {
        self.failing.contains(&self.calls)
    }

    fn count_call(&mut self)
        ensures { self.new ≡ called self.old }
    {
        self.calls = self.calls.saturating_add(1);
    }

    fn count_fault(&mut self)
        ensures after { self.new ≡ faulted self.old }
        ensures fault { Faulted self.old.faults self.new.faults }
    {
        self.count_call();
        self.faults = self.faults.saturating_add(1);
    }
}

/// A keeper in memory, some of whose calls fail by plan. It always tells its book.
///
/// Contracts see the book and the plan.
#[derive(Debug, Drop)]
pub struct PlannedKeeper {
    keeper: MemoryKeeper,
    plan: Plan,
}

impl Model for PlannedKeeper {
    ghost use Rattle.keeper_core.specs.Planned.{Planned};

    ghost Value = { Planned };

    ghost view = { λ planned. record { book = planned.keeper; plan = planned.plan } };
}

impl PlannedKeeper {
    ghost use Rattle.std.specs.Prelude.{◌≡◌};
    ghost use Rattle.book_rows.specs.Book.{book_of, empty_book};

    /// A keeper of an empty book. The calls of `load` and `commit` with the numbers in `failing` fail, counted together
    /// from 0.
    pub fn new(alloc: Global, failing: Vec<u64>) -> PlannedKeeper
        ensures { result ≡ record {
          book = empty_book;
          plan = record { failing = failing.items; calls = 0; faults = 0 };
        } }
    {
        PlannedKeeper::with(Tables::new(alloc), failing)
    }

    /// A keeper of these tables, whose calls fail as those of [`PlannedKeeper::new`].
    pub fn with(tables: Tables, failing: Vec<u64>) -> PlannedKeeper
        ensures { result ≡ record {
          book = book_of tables;
          plan = record { failing = failing.items; calls = 0; faults = 0 };
        } }
    {
        PlannedKeeper {
            keeper: MemoryKeeper::with(tables),
            plan: Plan::new(failing),
        }
    }

    /// The tables that it keeps.
    pub fn tables(&self) -> &Tables
        ensures { book_of result.now ≡ self.now.book }
    {
        self.keeper.tables()
    }

    /// The tables that it keeps.
    pub fn into_tables(self) -> Tables
        ensures { book_of result ≡ self.book }
    {
        let PlannedKeeper { keeper, .. } = self;
        keeper.into_tables()
    }

    /// The faults so far.
    pub fn faults(&self) -> u64
        ensures { result ≡ self.now.plan.faults }
    {
        self.plan.faults
    }
}

impl Keeper for PlannedKeeper {
    ghost use Rattle.std.specs.Prelude.{◌≡◌, ◌↔◌, ⊤, IsTrue};
    ghost use Rattle.std.specs.Str.{is_utf8};
    ghost use Rattle.book_rows.specs.Book.{Book, IsBatch, IsBefore};
    ghost use Rattle.keeper_core.specs.Keeping.{Only, Gives, LoadCause, Commits, CommitsOn, CommitCause};
    ghost use Rattle.keeper_core.specs.Planned.{is_failing, after_call};

    ghost holds = { λ planned. Only planned.book };

    ghost bad = { λ _ _. ⊥ };

    ghost faults = { λ planned. planned.plan.faults };

    ghost is_well = { λ _. ⊤ };

    ghost tells_crash = { λ _. ⊥ };

    ghost leaves = { λ _ _. ⊥ };

    fn load(&mut self, alloc: Global) -> Loaded
        ensures gives { Gives (Only self.new.book) (λ _. ⊥) result }
        ensures kept { self.new.book ≡ self.old.book }
        ensures cause { LoadCause self.old.plan.faults self.new.plan.faults result }
        ensures fails { (result ≡ Loaded.Failed) ↔ IsTrue (is_failing self.old.plan) }
        ensures plan { self.new.plan ≡ after_call self.old.plan }
    {
        if self.plan.is_failing() {
            self.plan.count_fault();
            return Loaded::Failed;
        }
        self.plan.count_call();
        self.keeper.load(alloc)
    }

    fn commit(&mut self, alloc: Global, batch: &Batch) -> Committed
        requires batch { IsBatch batch.now }
        requires next { IsBefore self.old.book batch.now.act.n }
        requires text { IsTrue (is_utf8 batch.now.act.body) }
        ensures leaves { Commits (Only self.old.book) (Only self.new.book) batch.now result }
        ensures goes_on { CommitsOn (Only self.old.book) (Only self.new.book) batch.now result }
        ensures cause { CommitCause self.old.plan.faults self.new.plan.faults result }
        ensures fails { (result ≡ Committed.Failed) ↔ IsTrue (is_failing self.old.plan) }
        ensures plan { self.new.plan ≡ after_call self.old.plan }
    {
        if self.plan.is_failing() {
            self.plan.count_fault();
            return Committed::Failed;
        }
        self.plan.count_call();
        match self.keeper.append(alloc, batch) {
            Ok(()) => Committed::Done,
            Err(NoMemory) => Committed::NoMemory,
        }
    }
}
