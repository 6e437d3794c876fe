//! An office is opened on tables that are given.

ghost use Rattle.std.specs.Prelude.{◌≡◌, ◌≤◌, None, IfOk, IfErr, IfSome};
ghost use Rattle.book_rows.specs.Book.{book_of, empty_book};
ghost use Rattle.office_answers.specs.Below.office_step.Valid.{first_fault};
ghost use Rattle.office_core.specs.Opening.{IsNamed};
ghost use Rattle.office_core.specs.Replaying.{IsReplay};
ghost use Rattle.record_history.specs.Limits.{most_acts, most_lines};

use crate::Office;
use crate::replaying::Replay;
use book_replay::office_laws::books_are_upheld;
use book_replay::{StoredRows, replay_is_kept};
use book_rows::Tables;
use office_answers::office_step::{Capacity, Fault};
use record_history::{Dates, Record};
use std::alloc::Global;

/// Why a book isn't opened.
#[derive(Clone, Copy, Debug, PartialEq, Eq)]
pub enum OpenFault {
    /// The tables aren't those of an office: where they first go wrong.
    BadBook(Fault),
    NoMemory,
}

impl Office {
    ghost use Rattle.std.specs.Prelude.{◌≡◌, ◌≤◌, None, IfOk, IfErr};
    ghost use Rattle.book_rows.specs.Book.{book_of};
    ghost use Rattle.office_answers.specs.Below.office_step.Valid.{first_fault};
    ghost use Rattle.book_replay.specs.Below.office_laws.Upheld.{IsUpheld};
    ghost use Rattle.office_core.specs.Opening.{IsNamed};
    ghost use Rattle.record_history.specs.Limits.{most_acts, most_lines};

    /// The office whose book the tables are: each of their acts is done again, and has to come to just the rows that they
    /// hold of it. The tables are held as they are.
    pub fn open(alloc: Global, tables: Tables, capacity: Capacity) -> Result<Office, OpenFault>
        requires acts { capacity.acts ≤ most_acts }
        requires lines { capacity.lines ≤ most_lines }
        ensures book { IfOk result (λ office. office.book ≡ book_of tables) }
        ensures capacity { IfOk result (λ office. office.capacity ≡ capacity) }
        ensures valid { IfOk result (λ office. first_fault capacity (book_of tables) ≡ None) }
        ensures upheld { IfOk result (λ office. IsUpheld capacity (book_of tables)) }
        ensures bad { IfErr result (IsNamed (first_fault capacity (book_of tables))) }
    {
        books_are_upheld();
        match done_again(alloc, &tables, capacity) {
            Ok(replay) => Ok(Office {
                capacity,
                tables,
                register: replay.register,
                requests: replay.requests,
            }),
            Err(fault) => Err(fault),
        }
    }
}

/// What an office knows by all acts of the tables, unless their rows aren't an office's.
fn done_again(alloc: Global, tables: &Tables, capacity: Capacity) -> Result<Replay, OpenFault>
    requires acts { capacity.acts ≤ most_acts }
    requires lines { capacity.lines ≤ most_lines }
    ensures capacity { IfOk result (λ replay. replay.capacity ≡ capacity) }
    ensures known { IfOk result (λ replay. IsReplay replay (book_of tables.now)) }
    ensures valid { IfOk result (λ replay. first_fault capacity (book_of tables.now) ≡ None) }
    ensures bad { IfErr result (IsNamed (first_fault capacity (book_of tables.now))) }
{
    let given = StoredRows::new(tables);
    let Ok(mut replay) = Replay::new(alloc, capacity) else {
        return Err(OpenFault::NoMemory);
    };
    match fault_of_tables(alloc, &mut replay, tables, &given) {
        Some(fault) => {
            replay.let_go();
            Err(fault)
        }
        None => Ok(replay),
    }
}

/// Where the tables first aren't an office's, once their acts are done again, or that memory ran out.
fn fault_of_tables(
    alloc: Global,
    replay: &mut Replay,
    tables: &Tables,
    given: &StoredRows,
) -> Option<OpenFault>
    requires known { IsReplay replay.old empty_book }
    requires given { given.now ≡ book_of tables.now }
    ensures capacity { replay.new.capacity ≡ replay.old.capacity }
    ensures named { IfSome result (IsNamed (first_fault replay.old.capacity (book_of tables.now))) }
    ensures valid { result ≡ None → first_fault replay.old.capacity (book_of tables.now) ≡ None }
    ensures known { result ≡ None → IsReplay replay.new (book_of tables.now) }
{
    replay_is_kept();
    for (place, row) in tables.acts.iter().enumerate() {
        if let Err(fault) = replay.redo(alloc, given, &tables.acts[..place], row) {
            return Some(fault);
        }
    }
    match given.stray_row() {
        Some(fault) => Some(OpenFault::BadBook(fault)),
        None => None,
    }
}
