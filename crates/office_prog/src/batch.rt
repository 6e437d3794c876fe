//! The command `batch`.

ghost use Rattle.std.specs.Prelude.{◌≡◌};
ghost use Rattle.batch_command.specs.Below.clerk_desk.OpenBook.{IsOpen, StaysOpen};
ghost use Rattle.batch_command.specs.Below.clerk_desk.Serving.{Outlives};
ghost use Rattle.batch_command.specs.Batch.{LeavesByLine};
ghost use Rattle.program_answers.specs.Keeping.{StillTells};
ghost use Rattle.office_prog.specs.Batch.{Batched, status_of};
ghost use Rattle.program_answers.specs.Opening.{ComesOfBook, door, largest};

use batch_command::clerk_desk::open_office;
use batch_command::office_core::Office;
use batch_command::{Ending, answer_lines};
use keeper_core::Keeper;
use office_io::{Clock, ExitStatus, Sink, Source};
use program_answers::{LARGEST, tell_unopened};
use std::alloc::Global;

/// Opens the keeper's book, answers the lines of the source on it, and gives the status.
pub fn run_batch<K: Keeper, S: Source, W: Sink, C: Clock>(
    alloc: Global,
    source: &mut S,
    sink: &mut W,
    clock: &C,
    keeper: &mut K,
) -> ExitStatus
    ensures comes { ComesOfBook (Batched (C.may_show clock.now)) (K.holds keeper.old) (K.holds keeper.new) (K.bad keeper.new)
        (door (S.left source.old) (W.held sink.old) (S.faults source.old) (W.faults sink.old) (K.faults keeper.old))
        (door (S.left source.new) (W.held sink.new) (S.faults source.new) (W.faults sink.new) (K.faults keeper.new)) result }
    ensures tells_on { StillTells (K.holds keeper.old) (K.is_well keeper.new) (K.holds keeper.new) }
    ensures stopped { Outlives (LeavesByLine largest (C.may_show clock.now) (S.left source.old))
        (K.holds keeper.old) (K.leaves keeper.old) (K.tells_crash keeper.old) (K.holds keeper.new) (K.leaves keeper.new) (K.tells_crash keeper.new) }
{
    match open_office(alloc, keeper, LARGEST) {
        Ok(mut office) => {
            let status = answer_batch(alloc, &mut office, source, sink, clock, keeper);
            let _of_an_office = office.tables();
            status
        }
        Err(fault) => tell_unopened(alloc, sink, fault),
    }
}

/// Answers the lines of the source, and gives the status.
fn answer_batch<K: Keeper, S: Source, W: Sink, C: Clock>(
    alloc: Global,
    office: &mut Office,
    source: &mut S,
    sink: &mut W,
    clock: &C,
    keeper: &mut K,
) -> ExitStatus
    requires told { IsOpen K.Keeper office.old keeper.old }
    requires capacity { office.old.capacity ≡ largest }
    ensures batched { Batched (C.may_show clock.now) office.old.book office.new.book
        (door (S.left source.old) (W.held sink.old) (S.faults source.old) (W.faults sink.old) (K.faults keeper.old))
        (door (S.left source.new) (W.held sink.new) (S.faults source.new) (W.faults sink.new) (K.faults keeper.new)) result }
    ensures stays { StaysOpen K.Keeper office.old keeper.old office.new keeper.new }
    ensures stopped { Outlives (LeavesByLine largest (C.may_show clock.now) (S.left source.old))
        (K.holds keeper.old) (K.leaves keeper.old) (K.tells_crash keeper.old) (K.holds keeper.new) (K.leaves keeper.new) (K.tells_crash keeper.new) }
{
    status_of(answer_lines(alloc, office, source, sink, clock, keeper))
}

/// The status of an ending.
pub fn status_of(ending: Ending) -> ExitStatus
    ensures { result ≡ status_of ending }
{
    match ending {
        Ending::Done => ExitStatus::Done,
        Ending::ReadFault => ExitStatus::ReadFault,
        Ending::WriteFault => ExitStatus::WriteFault,
        Ending::StoreFault => ExitStatus::StoreFault,
        Ending::NoMemory => ExitStatus::NoMemory,
        Ending::TooLong => ExitStatus::TooLong,
    }
}
