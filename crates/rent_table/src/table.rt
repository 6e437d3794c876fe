//! The property of an office, held.

ghost use Rattle.std.specs.Prelude.{◌≡◌, ◌+◌, ◌<◌, ◌≤◌, [], ◌∷◌, ◌++◌, length, All, OnOk, IfOk, IsOk};
ghost use Rattle.std.specs.Option.{option_copied};
ghost use Rattle.rent_table.specs.Table.{unit_at, unit_named, rents_on, limits_on};
ghost use Rattle.rent_table.specs.Table.{HaveOwnNumbers, HaveOwnNames, RentActsRise, LimitActsRise};

use crate::lookup::{add_by_name, add_by_number, unit_of_name, unit_of_number};
use crate::standing::{limit_row_on, rent_row_on};
use crate::{LimitRow, RentRow, Unit};
use days_core::{Day, Rents};
use plain_data::{NoMemory, Text};
use row_index::RowIndex;
use std::alloc::Global;
use std::marker::Model;

/// The units of an office, and the rents and income limits that were ever set.
#[derive(Debug, Drop)]
pub struct RentTable {
    units: Vec<Unit>,
    // The places of the units by their numbers.
    by_number: RowIndex,
    // The places of the units in the order of their names.
    by_name: Vec<usize>,
    rents: Vec<RentRow>,
    limits: Vec<LimitRow>,
}

impl Model for RentTable {
    ghost use Rattle.std.specs.Prelude.{◌-◌, min, vec_len, vec_capacity};
    ghost use Rattle.rent_table.specs.Table.{Table, IsSound};

    ghost Value = { Table };

    ghost view = { λ table. record {
      units = table.units.items;
      rents = table.rents.items;
      limits = table.limits.items;
      unit_room = min (vec_capacity table.units - vec_len table.units) (min table.by_number.room (vec_capacity table.by_name - vec_len table.by_name));
      rent_room = vec_capacity table.rents - vec_len table.rents;
      limit_room = vec_capacity table.limits - vec_len table.limits;
    } };

    ghost invariant = { λ table. IsSound table.units.items table.by_number.entries table.by_name.items table.rents.items table.limits.items };
}

impl RentTable {
    pub fn new(alloc: Global) -> Result<RentTable, NoMemory>
        ensures units { IfOk result (λ table. table.units ≡ []) }
        ensures rents { IfOk result (λ table. table.rents ≡ []) }
        ensures limits { IfOk result (λ table. table.limits ≡ []) }
    {
        Ok(RentTable {
            units: Vec::new(alloc),
            by_number: RowIndex::new(alloc),
            by_name: Vec::new(alloc),
            rents: Vec::new(alloc),
            limits: Vec::new(alloc),
        })
    }

    /// Makes room for one more row of each sort, and fails only where memory ran out.
    pub fn reserve(&mut self) -> Result<(), NoMemory>
        ensures units { self.new.units ≡ self.old.units }
        ensures rents { self.new.rents ≡ self.old.rents }
        ensures limits { self.new.limits ≡ self.old.limits }
        ensures unit_room { OnOk result (1 ≤ self.new.unit_room) }
        ensures rent_room { OnOk result (1 ≤ self.new.rent_room) }
        ensures limit_room { OnOk result (1 ≤ self.new.limit_room) }
        ensures succeeds { 1 ≤ self.old.unit_room → 1 ≤ self.old.rent_room → 1 ≤ self.old.limit_room → IsOk result }
        ensures unit_room_kept { self.old.unit_room ≤ self.new.unit_room }
        ensures rent_room_kept { self.old.rent_room ≤ self.new.rent_room }
        ensures limit_room_kept { self.old.limit_room ≤ self.new.limit_room }
    {
        self.units.reserve(1)?;
        self.by_number.reserve()?;
        self.by_name.reserve(1)?;
        self.rents.reserve(1)?;
        self.limits.reserve(1)?;
        Ok(())
    }

    /// Adds a unit, which has a new number and a new name.
    pub fn push_unit(&mut self, unit: Unit)
        requires room { 1 ≤ self.old.unit_room }
        requires number { unit_at self.old.units unit.number ≡ None }
        requires name { unit_named self.old.units unit.name ≡ None }
        ensures units { self.new.units ≡ self.old.units ++ unit ∷ [] }
        ensures room { self.new.unit_room + 1 ≡ self.old.unit_room }
        ensures rents { self.new.rents ≡ self.old.rents }
        ensures limits { self.new.limits ≡ self.old.limits }
        ensures rent_room { self.new.rent_room ≡ self.old.rent_room }
        ensures limit_room { self.new.limit_room ≡ self.old.limit_room }
    {
        add_by_number(&self.units, &mut self.by_number, &unit);
        add_by_name(&self.units, &mut self.by_name, &unit);
        self.units.push_reserved(unit);
    }

    /// Adds rents that an act set after all that were set before.
    pub fn push_rents(&mut self, row: RentRow)
        requires room { 1 ≤ self.old.rent_room }
        requires act { All (λ earlier. earlier.act < row.act) self.old.rents }
        ensures rents { self.new.rents ≡ self.old.rents ++ row ∷ [] }
        ensures room { self.new.rent_room + 1 ≡ self.old.rent_room }
        ensures units { self.new.units ≡ self.old.units }
        ensures limits { self.new.limits ≡ self.old.limits }
        ensures unit_room { self.new.unit_room ≡ self.old.unit_room }
        ensures limit_room { self.new.limit_room ≡ self.old.limit_room }
    {
        self.rents.push_reserved(row);
    }

    /// Adds income limits that an act set after all that were set before.
    pub fn push_limits(&mut self, row: LimitRow)
        requires room { 1 ≤ self.old.limit_room }
        requires act { All (λ earlier. earlier.act < row.act) self.old.limits }
        ensures limits { self.new.limits ≡ self.old.limits ++ row ∷ [] }
        ensures room { self.new.limit_room + 1 ≡ self.old.limit_room }
        ensures units { self.new.units ≡ self.old.units }
        ensures rents { self.new.rents ≡ self.old.rents }
        ensures unit_room { self.new.unit_room ≡ self.old.unit_room }
        ensures rent_room { self.new.rent_room ≡ self.old.rent_room }
    {
        self.limits.push_reserved(row);
    }

    /// The unit of that number.
    pub fn unit(&self, number: u32) -> Option<&Unit>
        ensures value { option_copied result ≡ unit_at self.now.units number }
        ensures own_numbers { HaveOwnNumbers self.now.units }
    {
        unit_of_number(&self.units, &self.by_number, number)
    }

    /// The number of the unit of that name.
    pub fn unit_named(&self, name: &Text) -> Option<u32>
        ensures value { result ≡ unit_named self.now.units name.now }
        ensures own_names { HaveOwnNames self.now.units }
    {
        unit_of_name(&self.units, &self.by_name, name).map(|unit| unit.number)
    }

    /// The units in the order in which they were added.
    pub fn unit_rows(&self) -> &[Unit]
        ensures rows { result.now ≡ self.now.units }
        ensures own_numbers { HaveOwnNumbers self.now.units }
        ensures own_names { HaveOwnNames self.now.units }
    {
        &self.units
    }

    /// The rents that were ever set, in the order of their acts.
    pub fn rent_rows(&self) -> &[RentRow]
        ensures rows { result.now ≡ self.now.rents }
        ensures acts_rise { RentActsRise self.now.rents }
    {
        &self.rents
    }

    /// The rents of a group of units on a day.
    pub fn rents_on(&self, group: u32, day: Day) -> Option<Rents>
        ensures value { result ≡ rents_on self.now.rents group day }
        ensures acts_rise { RentActsRise self.now.rents }
    {
        rent_row_on(&self.rents, group, day).map(|row| row.rents)
    }

    /// The row with the income limits on a day.
    pub fn limits_on(&self, day: Day) -> Option<&LimitRow>
        ensures value { option_copied result ≡ limits_on self.now.limits day }
        ensures acts_rise { LimitActsRise self.now.limits }
    {
        limit_row_on(&self.limits, day)
    }
}
