//! An office is opened on the book that a keeper keeps.

ghost use Rattle.std.specs.Prelude.{◌≡◌, ◌≤◌, None, IfOk, IfErr};
ghost use Rattle.keeper_core.specs.Keeping.{Keeps, Gives, LoadCause};
ghost use Rattle.office_core.specs.Below.office_step.Valid.{first_fault};
ghost use Rattle.clerk_desk.specs.Opening.{TellsOnly, Opens, IsUnopened, BlamesKeeper};
ghost use Rattle.record_history.specs.Limits.{most_acts, most_lines};

use keeper_core::{Keeper, Loaded};
use office_core::{Capacity, Fault, Office, OpenFault};
use std::alloc::Global;

/// Why there is no office on a keeper's book.
#[derive(Clone, Copy, Debug, PartialEq, Eq)]
pub enum DeskFault {
    /// The book isn't an office's: where it first goes wrong. Or a stored row has a number out of its range.
    BadBook(Fault),
    /// The keeper failed.
    StoreFault,
    NoMemory,
}

/// Opens the office whose book the keeper keeps.
pub fn open_office<K: Keeper>(
    alloc: Global,
    keeper: &mut K,
    capacity: Capacity,
) -> Result<Office, DeskFault>
    requires acts { capacity.acts ≤ most_acts }
    requires lines { capacity.lines ≤ most_lines }
    // It is what comes of the load's answer.
    ensures opened { (loaded : Loaded) × Gives (K.holds keeper.new) (K.bad keeper.new) loaded
        × LoadCause (K.faults keeper.old) (K.faults keeper.new) loaded × Opens capacity loaded result }
    ensures kept { Keeps (K.holds keeper.old) (K.holds keeper.new) }
    ensures kept_row { Keeps (K.bad keeper.old) (K.bad keeper.new) }
    ensures told { IfOk result (λ office. TellsOnly office.book (K.holds keeper.new) (K.bad keeper.new)) }
    ensures capacity { IfOk result (λ office. office.capacity ≡ capacity) }
    ensures valid { IfOk result (λ office. first_fault capacity office.book ≡ None) }
    ensures no_fault { IfOk result (λ _. K.faults keeper.new ≡ K.faults keeper.old) }
    ensures unopened { IfErr result (IsUnopened capacity (K.holds keeper.new) (K.bad keeper.new)) }
    ensures cause { IfErr result (BlamesKeeper (K.faults keeper.old) (K.faults keeper.new)) }
    ensures well { K.is_well keeper.new → K.is_well keeper.old }
    ensures goes_on { K.is_well keeper.new → Keeps (K.holds keeper.new) (K.holds keeper.old) }
    ensures crash_told { K.tells_crash keeper.new → K.tells_crash keeper.old }
    ensures crash { K.tells_crash keeper.new → Keeps (K.leaves keeper.old) (K.leaves keeper.new) }
{
    let loaded = keeper.load(alloc);
    opened(alloc, loaded, capacity)
}

fn opened(alloc: Global, loaded: Loaded, capacity: Capacity) -> Result<Office, DeskFault>
    requires acts { capacity.acts ≤ most_acts }
    requires lines { capacity.lines ≤ most_lines }
    ensures { Opens capacity loaded result }
{
    match loaded {
        Loaded::Rows(tables) => match Office::open(alloc, tables, capacity) {
            Ok(office) => Ok(office),
            Err(OpenFault::BadBook(fault)) => Err(DeskFault::BadBook(fault)),
            Err(OpenFault::NoMemory) => Err(DeskFault::NoMemory),
        },
        Loaded::BadRow { table, act } => Err(DeskFault::BadBook(Fault { table, act })),
        Loaded::Failed => Err(DeskFault::StoreFault),
        Loaded::NoMemory => Err(DeskFault::NoMemory),
    }
}
