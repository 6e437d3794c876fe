//! The office of one clerk: its book, and what it knows by that.

use crate::Step;
use book_replay::office_laws::{books_are_upheld, within_room};
use book_rows::Tables;
use office_answers::office_register::Register;
use office_answers::office_step::{Capacity, Closed};
use plain_data::{NoMemory, Text};
use record_history::{Dates, History, Record};
use rent_table::{Plan, RentTable};
use row_index::RowIndex;
use std::alloc::Global;
use std::marker::Model;

/// An office of one clerk, with the book of all that it accepted.
///
/// Contracts see its capacity and its book, and beside them the room for more.
#[derive(Drop)]
pub struct Office {
    pub(crate) capacity: Capacity,
    pub(crate) tables: Tables,
    pub(crate) register: Register,
    pub(crate) requests: RowIndex,
}

impl Model for Office {
    ghost use Rattle.book_rows.specs.Book.{book_of, room_of};
    ghost use Rattle.office_core.specs.Office.{Holding, IsOffice};

    ghost Value = { Holding };

    ghost view = { λ office. record {
      capacity = office.capacity;
      book = book_of office.tables;
      room = record {
        tables = room_of office.tables;
        acts = office.register.room;
        records = office.register.record_room;
        requests = office.requests.room;
      };
    } };

    ghost invariant = { λ office. IsOffice office };
}

impl Office {
    ghost use Rattle.std.specs.Prelude.{◌≡◌, ◌≤◌, IfOk, length, option_copied};
    ghost use Rattle.book_replay.specs.Below.office_laws.Upheld.{IsUpheld};
    ghost use Rattle.book_rows.specs.Book.{book_of, empty_book};
    ghost use Rattle.office_answers.specs.Below.office_step.Acts.{at_number};
    ghost use Rattle.office_answers.specs.Below.office_step.Known.{known_of};
    ghost use Rattle.office_answers.specs.Below.office_step.Step.{IsReached};
    ghost use Rattle.record_history.specs.Limits.{most_acts, most_lines};

    /// An office with an empty book.
    pub fn new(alloc: Global, capacity: Capacity) -> Result<Office, NoMemory>
        requires acts { capacity.acts ≤ most_acts }
        requires lines { capacity.lines ≤ most_lines }
        ensures book { IfOk result (λ office. office.book ≡ empty_book) }
        ensures capacity { IfOk result (λ office. office.capacity ≡ capacity) }
    {
        Ok(Office {
            capacity,
            tables: Tables::new(alloc),
            register: Register::new(alloc)?,
            requests: RowIndex::new(alloc),
        })
    }

    pub fn capacity(&self) -> Capacity
        ensures { result ≡ self.now.capacity }
    {
        self.capacity
    }

    /// The rows of its book.
    pub fn tables(&self) -> &Tables
        ensures book { book_of result.now ≡ self.now.book }
        ensures reached { IsReached self.now.capacity self.now.book }
        ensures upheld { IsUpheld self.now.capacity self.now.book }
        ensures few { length self.now.book.acts ≤ most_acts }
    {
        books_are_upheld();
        within_room();
        &self.tables
    }

    /// Gives up the rows of its book.
    pub fn into_tables(self) -> Tables
        ensures book { book_of result ≡ self.book }
        ensures reached { IsReached self.capacity self.book }
        ensures upheld { IsUpheld self.capacity self.book }
        ensures few { length self.book.acts ≤ most_acts }
    {
        books_are_upheld();
        within_room();
        self.tables
    }

    /// The households' records.
    pub fn history(&self) -> &History
        ensures { result.now.households ≡ (known_of self.now.book).households }
    {
        self.register.history()
    }

    /// The units, and the rents and limits that were ever set.
    pub fn rents(&self) -> &RentTable
        ensures units { result.now.units ≡ (known_of self.now.book).units }
        ensures rents { result.now.rents ≡ (known_of self.now.book).rents }
        ensures limits { result.now.limits ≡ (known_of self.now.book).limits }
    {
        self.register.table()
    }

    /// The plan, if one was accepted.
    pub fn plan(&self) -> Option<&Plan>
        ensures { option_copied result ≡ (known_of self.now.book).plan }
    {
        self.register.plan()
    }

    /// The last closing, if a month is closed.
    pub fn last_close(&self) -> Option<Closed>
        ensures { result ≡ (known_of self.now.book).closing }
    {
        self.register.closing()
    }

    /// The number of households.
    pub fn households(&self) -> u32
        ensures { result ≡ length (known_of self.now.book).households }
    {
        self.register.households()
    }

    /// The name of the household of that number, if there is one.
    pub fn household_name(&self, household: u32) -> Option<&Text>
        ensures { option_copied result ≡ at_number (known_of self.now.book).names household }
    {
        self.register.household_name(household)
    }
}
