//! The tables of a book.

ghost use Rattle.std.specs.Prelude.{◌≡◌, ◌≤◌, ◌+◌, ◌-◌, ◌++◌, length, option_to_list, vec_len, vec_capacity, OnOk, IsOk};
ghost use Rattle.book_rows.specs.Book.{book_of, empty_book, appended, room_of, HasRoom, IsNoLess};

use crate::rows::{ActRow, Batch};
use plain_data::NoMemory;
use record_history::{Dates, Record};
use std::alloc::Global;
use voucher_core::Line;

/// The rows of a book, which are only added at the end.
#[derive(Debug, Drop)]
pub struct Tables {
    /// By number, from 1.
    pub acts: Vec<ActRow>,
    /// By act; an act makes at most one.
    pub records: Vec<Record>,
    /// By act and place.
    pub lines: Vec<Line>,
}

impl Tables {
    /// The tables of an empty book.
    pub fn new(alloc: Global) -> Tables
        ensures { book_of result ≡ empty_book }
    {
        Tables {
            acts: Vec::new(alloc),
            records: Vec::new(alloc),
            lines: Vec::new(alloc),
        }
    }

    /// Makes room for the rows of one more act, and fails only where memory ran out.
    pub fn reserve(&mut self, batch: &Batch) -> Result<(), NoMemory>
        ensures book { book_of self.new ≡ book_of self.old }
        ensures room { OnOk result (HasRoom (room_of self.new) batch.now) }
        ensures kept { IsNoLess (room_of self.old) (room_of self.new) }
        ensures succeeds { HasRoom (room_of self.old) batch.now → IsOk result }
    {
        self.acts.reserve(1)?;
        self.records.reserve(1)?;
        self.lines.reserve(batch.lines.as_slice().len())?;
        Ok(())
    }

    /// Appends the rows of one more act, for which there is room. It takes no memory.
    pub fn append(&mut self, batch: Batch)
        requires { HasRoom (room_of self.old) batch }
        ensures book { book_of self.new ≡ appended (book_of self.old) batch }
        ensures acts { (room_of self.new).acts + 1 ≡ (room_of self.old).acts }
        ensures records { (room_of self.new).records + length (option_to_list batch.made) ≡ (room_of self.old).records }
        ensures lines { (room_of self.new).lines + length batch.lines ≡ (room_of self.old).lines }
    {
        let Batch { act, made, lines } = batch;
        self.acts.push_reserved(act);
        push_made(&mut self.records, made);
        push_lines(&mut self.lines, lines.as_slice());
    }
}

fn push_made(records: &mut Vec<Record>, made: Option<Record>)
    requires { 1 ≤ vec_capacity records.old - vec_len records.old }
    ensures items { records.new.items ≡ records.old.items ++ option_to_list made }
    ensures room { vec_capacity records.new - vec_len records.new + length (option_to_list made) ≡ vec_capacity records.old - vec_len records.old }
{
    if let Some(made) = made {
        // The check of the move below refuses a type that the function doesn't name, as Option and Dates.
        let _dates: Option<Dates> = made.dates;
        records.push_reserved(made);
    }
}

fn push_lines(lines: &mut Vec<Line>, more: &[Line])
    requires { length more.now ≤ vec_capacity lines.old - vec_len lines.old }
    ensures items { lines.new.items ≡ lines.old.items ++ more.now }
    ensures room { vec_capacity lines.new - vec_len lines.new + length more.now ≡ vec_capacity lines.old - vec_len lines.old }
{
    for line in more {
        lines.push_reserved(*line);
    }
}
