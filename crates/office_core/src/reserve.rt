//! Memory for a step is taken before anything is kept.

ghost use Rattle.std.specs.Prelude.{◌≡◌};
ghost use Rattle.std.specs.Option.{option_map_or};

use crate::{Office, Step};
use book_replay::office_laws::{appended_is_accepted, next_records};
use book_rows::Batch;
use plain_data::NoMemory;
use record_history::{Dates, Record};

impl Office {
    ghost use Rattle.std.specs.Prelude.{◌≡◌, ◌≤◌, ◌+◌, length, OnOk, IfSome};
    ghost use Rattle.record_history.specs.Held.{room_of};
    ghost use Rattle.book_rows.specs.Book.{HasRoom};
    ghost use Rattle.office_answers.specs.Below.office_step.Known.{known_of};
    ghost use Rattle.office_core.specs.Planned.{IsPlannedFor};
    ghost use Rattle.office_core.specs.Office.{HasRoomFor};

    fn reserve_tables(&mut self, batch: &Batch) -> Result<(), NoMemory>
        ensures book { self.new.book ≡ self.old.book }
        ensures capacity { self.new.capacity ≡ self.old.capacity }
        ensures room { OnOk result (HasRoom self.new.room.tables batch.now) }
    {
        self.tables.reserve(batch)
    }

    fn reserve_register(&mut self, household: u32) -> Result<(), NoMemory>
        requires { household ≤ length (known_of self.old.book).households + 1 }
        ensures book { self.new.book ≡ self.old.book }
        ensures capacity { self.new.capacity ≡ self.old.capacity }
        ensures tables { self.new.room.tables ≡ self.old.room.tables }
        ensures acts { OnOk result (1 ≤ self.new.room.acts) }
        ensures records { OnOk result (1 ≤ household → 1 ≤ room_of self.new.room.records household) }
    {
        self.register.reserve(household)
    }

    fn reserve_requests(&mut self) -> Result<(), NoMemory>
        ensures book { self.new.book ≡ self.old.book }
        ensures capacity { self.new.capacity ≡ self.old.capacity }
        ensures tables { self.new.room.tables ≡ self.old.room.tables }
        ensures acts { self.new.room.acts ≡ self.old.room.acts }
        ensures records { self.new.room.records ≡ self.old.room.records }
        ensures requests { OnOk result (1 ≤ self.new.room.requests) }
    {
        self.requests.reserve()?;
        Ok(())
    }

    /// Makes room for a step that was planned for the office as it is.
    pub fn reserve(&mut self, step: &Step) -> Result<(), NoMemory>
        requires { IsPlannedFor self.old.capacity self.old.book step.now }
        ensures book { self.new.book ≡ self.old.book }
        ensures capacity { self.new.capacity ≡ self.old.capacity }
        ensures room { OnOk result (HasRoomFor self.new.room step.now) }
    {
        appended_is_accepted();
        next_records();
        self.reserve_tables(&step.batch)?;
        self.reserve_register(household_of(&step.batch.made))?;
        self.reserve_requests()?;
        Ok(())
    }
}

/// The household that the record is of, and 0 where there is none.
pub fn household_of(made: &Option<Record>) -> u32
    ensures { result ≡ option_map_or (λ r. r.household) made.now 0 }
{
    match made {
        Some(made) => made.household,
        None => 0,
    }
}
