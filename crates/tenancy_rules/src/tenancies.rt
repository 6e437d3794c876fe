//! The records of all households, with who was ever in which unit.

use crate::Change;
use crate::occupancy::{DoubleUse, double_use_by};
use crate::uses::{Use, tell};
use plain_data::NoMemory;
use record_history::{Dates, History, Record};
use std::alloc::Global;
use std::marker::Model;

/// The records of each household, and by unit the households that ever had a record there, so that a double use is looked
/// for among these alone.
///
/// Contracts see the lists of records, and beside them the room that each has for more, and last that of the household to
/// come.
#[derive(Drop)]
pub struct Tenancies {
    history: History,
    // In the order of the units.
    uses: Vec<Use>,
}

impl Model for Tenancies {
    ghost use Rattle.record_history.specs.Held.{Held};
    ghost use Rattle.tenancy_rules.specs.Uses.{TellUses, room_beside};

    ghost Value = { Held };

    ghost view = { λ tenancies. record {
      households = tenancies.history.households;
      room = room_beside tenancies.history.room tenancies.uses;
    } };

    ghost invariant = { λ tenancies. TellUses tenancies.history.households tenancies.uses.items };
}

impl Tenancies {
    ghost use Rattle.std.specs.Prelude.{◌≡◌, ◌≤◌, ◌<◌, ◌+◌, ◌-◌, [], ℕ, length, IfOk, OnOk, IsOk};
    ghost use Rattle.days_core.specs.RentBounds.{most_gross_rent};
    ghost use Rattle.days_core.specs.OfficeDays.{last_office_day};
    ghost use Rattle.record_history.specs.Records.{newest_number, newest_act};
    ghost use Rattle.record_history.specs.Held.{records_of, room_of, with_place, with_record};
    ghost use Rattle.tenancy_rules.specs.Changed.{AddsNext};
    ghost use Rattle.tenancy_rules.specs.Occupancy.{first_double_use};

    pub fn new(alloc: Global) -> Result<Tenancies, NoMemory>
        ensures { IfOk result (λ tenancies. tenancies.households ≡ []) }
    {
        Ok(Tenancies {
            history: History::new(alloc)?,
            uses: Vec::new(alloc),
        })
    }

    /// Makes room for one more record of the household, which is one of those there are or the next.
    pub fn reserve(&mut self, household: u32) -> Result<(), NoMemory>
        requires first { 1 ≤ household }
        requires next { household ≤ length self.old.households + 1 }
        ensures households { self.new.households ≡ self.old.households }
        ensures room { OnOk result (1 ≤ room_of self.new.room household) }
        ensures kept { (other : ℕ) → room_of self.old.room other ≤ room_of self.new.room other }
        ensures succeeds { 1 ≤ room_of self.old.room household → IsOk result }
    {
        self.uses.reserve(1)?;
        self.history.reserve(household)
    }

    /// Holds a record more, for which there is room: the next of its household, by a later act, which corrects or withdraws an
    /// earlier one or none. It takes no memory.
    pub fn push(&mut self, held: Record)
        requires room { 1 ≤ room_of self.old.room held.household }
        requires number { held.number ≡ newest_number (records_of self.old.households held.household) + 1 }
        requires act { newest_act (records_of self.old.households held.household) < held.act }
        requires earlier { held.corrects < held.number }
        requires from { held.from ≤ last_office_day }
        requires contract_rent { held.rents.contract_rent ≤ 99999 }
        requires utility { held.rents.utility ≤ 9999 }
        requires assistance { held.assistance ≤ most_gross_rent }
        ensures households { self.new.households ≡ with_record (with_place self.old.households (held.household - 1)) held }
    {
        // The check of the move below refuses a type that the function doesn't name, as Option and Dates.
        let _dates: Option<Dates> = held.dates;
        tell(
            &mut self.uses,
            Use {
                unit: held.unit,
                household: held.household,
            },
        );
        self.history.push(held);
    }

    /// The records alone.
    pub fn history(&self) -> &History
        ensures { result.now.households ≡ self.now.households }
    {
        &self.history
    }

    /// The first day through 2099-12-31 on which one unit would have the household and another after the change, with the
    /// least of such others on that day; None where there is no such day.
    pub fn double_use(&self, household: u32, change: &Change) -> Option<DoubleUse>
        requires next { AddsNext (records_of self.now.households household) household change.now }
        ensures { result ≡ first_double_use self.now.households household change.now }
    {
        double_use_by(&self.history, &self.uses, household, change)
    }
}
