//! The records of all households, held.

use crate::force::{
    in_force_among, in_force_at, is_live_among, newest_act_among, newest_among, record_among,
};
use crate::household::Household;
use crate::lists::{household_of, push_at, reserve_at};
use crate::runs::runs_among;
use crate::{Dates, Record, Run};
use days_core::Day;
use plain_data::NoMemory;
use std::alloc::Global;
use std::marker::Model;

/// The records of each household, which are numbered from 1 without gaps.
///
/// Contracts see the lists of records, and beside them the room that each has for more, and last that of the household to
/// come.
#[derive(Drop)]
pub struct History {
    households: Vec<Household>,
    /// The household to come, without records.
    next: Household,
}

impl Model for History {
    ghost use Rattle.record_history.specs.Held.{Held};
    ghost use Rattle.record_history.specs.Households.{lists_in, all_room, AreSound};

    ghost Value = { Held };

    ghost view = { λ history. record { households = lists_in history.households.items; room = all_room history.households history.next } };

    ghost invariant = { λ history. AreSound history.households.items history.next };
}

impl History {
    ghost use Rattle.std.specs.Prelude.{◌≡◌, ◌≤◌, ◌<◌, ◌+◌, ◌-◌, ◌==◌, [], ◌∷◌, ℕ, map, nat_eq, length, slice_set, find, option_copied, is_ok, if◌then◌else◌, All, IfOk, OnOk, IsOk, IfSome};
    ghost use Rattle.days_core.specs.RentBounds.{most_gross_rent};
    ghost use Rattle.days_core.specs.OfficeDays.{last_office_day};
    ghost use Rattle.record_history.specs.Records.{as_of, live_records, is_live_as_of, in_force, in_force_as_of, newest_number, newest_act};
    ghost use Rattle.record_history.specs.Held.{records_of, room_of, room_after, with_place, with_record, IsWithin, AreNumbered, ActsRise, NameEarlier};
    ghost use Rattle.record_history.specs.Ordered.{AreInOrder};
    ghost use Rattle.record_history.specs.Households.{IsIndexed};
    ghost use Rattle.record_history.specs.Stretch.{stretches, CoverLongest};
    ghost use Rattle.record_history.specs.Runs.{number_on, stretch_of};

    pub fn new(alloc: Global) -> Result<History, NoMemory>
        ensures { IfOk result (λ history. history ≡ record { households = []; room = 0 ∷ [] }) }
    {
        Ok(History {
            households: Vec::new(alloc),
            next: Household::new(alloc),
        })
    }

    /// Makes room for one more record of the household, which is one of those there are or the next.
    pub fn reserve(&mut self, household: u32) -> Result<(), NoMemory>
        requires first { 1 ≤ household }
        requires next { household ≤ length self.old.households + 1 }
        ensures households { self.new.households ≡ self.old.households }
        ensures room { OnOk result (1 ≤ room_of self.new.room household) }
        ensures kept { (other : ℕ) → room_of self.old.room other ≤ room_of self.new.room other }
        ensures succeeds { 1 ≤ room_of self.old.room household → IsOk result }
    {
        reserve_at(&mut self.households, &mut self.next, household as usize - 1)
    }

    /// Holds a record more, for which there is room: the next of its household, by a later act, which corrects or withdraws an
    /// earlier one or none. It takes no memory.
    pub fn push(&mut self, held: Record)
        requires room { 1 ≤ room_of self.old.room held.household }
        requires number { held.number ≡ newest_number (records_of self.old.households held.household) + 1 }
        requires act { newest_act (records_of self.old.households held.household) < held.act }
        requires earlier { held.corrects < held.number }
        requires from { held.from ≤ last_office_day }
        requires contract_rent { held.rents.contract_rent ≤ 99999 }
        requires utility { held.rents.utility ≤ 9999 }
        requires assistance { held.assistance ≤ most_gross_rent }
        ensures households { self.new.households ≡ with_record (with_place self.old.households (held.household - 1)) held }
        ensures room { self.new.room ≡ room_after self.old.households self.old.room held.household }
    {
        // The check of the move below refuses a type that the function doesn't name, as Option and Dates.
        let _dates: Option<Dates> = held.dates;
        push_at(
            &mut self.households,
            &mut self.next,
            held.household as usize - 1,
            held,
        );
    }

    /// How many households there are.
    pub fn households(&self) -> u32
        ensures { result ≡ length self.now.households }
    {
        self.households.len() as u32
    }

    /// The household's records in the order in which they came, whether they count or not.
    pub fn records(&self, household: u32) -> &[Record]
        ensures records { result.now ≡ records_of self.now.households household }
        ensures within { All IsWithin result.now }
        ensures numbered { AreNumbered result.now }
        ensures acts { ActsRise result.now }
        ensures earlier { NameEarlier result.now }
    {
        &self.of(household).records
    }

    /// The household's records that count, in the order of their first days, and of one day in that of their numbers.
    pub fn live_records(&self, household: u32) -> &[Record]
        ensures order { AreInOrder (live_records (records_of self.now.households household)) result.now }
        ensures few { length result.now ≤ length (records_of self.now.households household) }
    {
        &self.of(household).live
    }

    /// The number of the household's newest record, and 0 where it has none.
    pub fn newest(&self, household: u32) -> u32
        ensures value { result ≡ newest_number (records_of self.now.households household) }
        ensures numbered { AreNumbered (records_of self.now.households household) }
    {
        newest_among(self.of(household))
    }

    /// The latest act that made a record of the household, and 0 where it has none.
    pub fn newest_act(&self, household: u32) -> u32
        ensures { result ≡ newest_act (records_of self.now.households household) }
    {
        newest_act_among(self.of(household))
    }

    /// The household's record of that number.
    pub fn record_at(&self, household: u32, number: u32) -> Option<&Record>
        ensures value { option_copied result ≡ find (λ r. r.number == number) (records_of self.now.households household) }
        ensures within { IfSome (option_copied result) IsWithin }
        ensures numbered { AreNumbered (records_of self.now.households household) }
    {
        record_among(self.of(household), number)
    }

    /// Whether the household's record of that number counts as of the act.
    pub fn live(&self, household: u32, number: u32, act: u32) -> bool
        ensures { result ≡ is_live_as_of act (records_of self.now.households household) number }
    {
        is_live_among(self.of(household), number, act)
    }

    /// The record by which the household is certified on the day, as it is known by now.
    pub fn in_force(&self, household: u32, day: Day) -> Option<&Record>
        ensures latest { option_copied result ≡ in_force (records_of self.now.households household) day }
        ensures within { IfSome (option_copied result) IsWithin }
    {
        in_force_among(self.of(household), day)
    }

    /// The record by which the household is certified on the day, as anyone could know it at the act.
    pub fn in_force_as_of(&self, household: u32, day: Day, act: u32) -> Option<&Record>
        ensures latest { option_copied result ≡ in_force_as_of act (records_of self.now.households household) day }
        ensures within { IfSome (option_copied result) IsWithin }
    {
        in_force_at(self.of(household), day, act)
    }

    /// The longest runs of days from the first to the last with one record in force, as known at the act.
    pub fn runs(
        &self,
        alloc: Global,
        household: u32,
        first: Day,
        last: Day,
        act: u32,
    ) -> Result<Vec<Run>, NoMemory>
        ensures runs { IfOk result (λ runs. map stretch_of runs.items ≡ stretches nat_eq (number_on (as_of act (records_of self.now.households household))) first (last + 1)) }
        ensures longest { IfOk result (λ runs. first ≤ last + 1 → CoverLongest (number_on (as_of act (records_of self.now.households household))) first (last + 1) (map stretch_of runs.items)) }
    {
        runs_among(alloc, self.of(household), first, last, act)
    }

    // A household that isn't there has no records, as the one to come.
    fn of(&self, household: u32) -> &Household
        ensures records { result.now.records.items ≡ records_of self.now.households household }
        ensures indexed { IsIndexed result.now }
    {
        household_of(&self.households, &self.next, household)
    }
}
