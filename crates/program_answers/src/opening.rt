//! How large a book may be, and what a run says that can't open one.

ghost use Rattle.std.specs.Prelude.{◌≡◌, ℕ, Option, List, IfOk, string_bytes};
ghost use Rattle.batch_command.specs.Below.clerk_desk.Opening.{BlamesKeeper};
ghost use Rattle.program_answers.specs.Opening.{Says, TellsFault, bad_book, door, table_name};

use crate::ending::finish;
use batch_command::clerk_desk::DeskFault;
use batch_command::office_core::{Capacity, Fault};
use book_rows::Table;
use office_io::{ExitStatus, Sink};
use record_history::{MOST_ACTS, MOST_LINES};
use std::alloc::{AllocError, Global};

/// How much the program's book may hold.
pub const LARGEST: Capacity = Capacity {
    acts: MOST_ACTS,
    lines: MOST_LINES,
};

/// Says why the keeper's book can't be opened, and gives the status.
pub fn tell_unopened<W: Sink>(alloc: Global, sink: &mut W, fault: DeskFault) -> ExitStatus
    ensures { (left : Option (List ℕ)) (source keeper keeper_now : ℕ) → BlamesKeeper keeper keeper_now fault →
        TellsFault (door left (W.held sink.old) source (W.faults sink.old) keeper)
        (door left (W.held sink.new) source (W.faults sink.new) keeper_now) fault result }
{
    match fault {
        DeskFault::BadBook(found) => tell_bad_book(alloc, sink, found),
        DeskFault::StoreFault => ExitStatus::StoreFault,
        DeskFault::NoMemory => ExitStatus::NoMemory,
    }
}

/// Writes where a book first goes wrong.
fn tell_bad_book<W: Sink>(alloc: Global, sink: &mut W, fault: Fault) -> ExitStatus
    ensures { (left : Option (List ℕ)) (source keeper : ℕ) → Says (bad_book fault)
        (door left (W.held sink.old) source (W.faults sink.old) keeper) (door left (W.held sink.new) source (W.faults sink.new) keeper) result }
{
    match bad_book_line(alloc, fault) {
        Ok(line) => finish(sink, ExitStatus::BadBook, line.as_bytes()),
        Err(_) => ExitStatus::NoMemory,
    }
}

fn bad_book_line(alloc: Global, fault: Fault) -> Result<String, AllocError>
    ensures { IfOk result (λ line. string_bytes line ≡ (bad_book fault).text) }
{
    let table = table_name(fault.table);
    format!(in alloc; "bad book: {table} {}\n", fault.act)
}

fn table_name(table: Table) -> &'static str
    ensures { result.now ≡ table_name table }
{
    match table {
        Table::Acts => "acts",
        Table::Records => "records",
        Table::Lines => "lines",
    }
}
