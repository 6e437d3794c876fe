//! The command `import`.

ghost use Rattle.std.specs.Prelude.{◌≡◌, ◌≤◌, ℕ, Option, Some, List};
ghost use Rattle.batch_command.specs.Below.clerk_desk.OpenBook.{IsOpen, StaysOpen};
ghost use Rattle.batch_command.specs.Below.clerk_desk.Serving.{Outlives};
ghost use Rattle.program_answers.specs.Keeping.{StillTells};
ghost use Rattle.office_prog.specs.Import.{AnswersInput, Imported, LeavesByInput};
ghost use Rattle.program_answers.specs.Opening.{ComesOfBook, door, largest};

use crate::batch::status_of;
use applicant_rows::{ImportFault, applicants_of_csv};
use batch_command::clerk_desk::open_office;
use batch_command::office_core::Office;
use import_command::answer_rows;
use keeper_core::Keeper;
use office_io::{Clock, ExitStatus, Input, Sink, Source, read_up_to};
use program_answers::{LARGEST, finish, tell_unopened};
use std::alloc::Global;

/// The most bytes of an import.
const IMPORT_LIMIT: usize = 4_194_304;

/// What another header is answered with.
const OTHER_HEADER: &[u8] = b"{\"refused\":{\"kind\":\"Form\",\"path\":\"header\"}}\n";

/// Opens the keeper's book, takes the applicants of the source in on it, and gives the status.
pub fn run_import<K: Keeper, S: Source, W: Sink, C: Clock>(
    alloc: Global,
    clerk: u32,
    source: &mut S,
    sink: &mut W,
    clock: &C,
    keeper: &mut K,
) -> ExitStatus
    requires least { 1 ≤ clerk }
    requires most { clerk ≤ 9999 }
    ensures comes { ComesOfBook (Imported clerk (C.may_show clock.now)) (K.holds keeper.old) (K.holds keeper.new) (K.bad keeper.new)
        (door (S.left source.old) (W.held sink.old) (S.faults source.old) (W.faults sink.old) (K.faults keeper.old))
        (door (S.left source.new) (W.held sink.new) (S.faults source.new) (W.faults sink.new) (K.faults keeper.new)) result }
    ensures tells_on { StillTells (K.holds keeper.old) (K.is_well keeper.new) (K.holds keeper.new) }
    ensures stopped { Outlives (LeavesByInput clerk (C.may_show clock.now) (S.left source.old))
        (K.holds keeper.old) (K.leaves keeper.old) (K.tells_crash keeper.old) (K.holds keeper.new) (K.leaves keeper.new) (K.tells_crash keeper.new) }
{
    match open_office(alloc, keeper, LARGEST) {
        Ok(mut office) => {
            let status = import(alloc, clerk, &mut office, source, sink, clock, keeper);
            let _of_an_office = office.tables();
            status
        }
        Err(fault) => tell_unopened(alloc, sink, fault),
    }
}

/// Reads the source to its end, answers its rows, and gives the status.
fn import<K: Keeper, S: Source, W: Sink, C: Clock>(
    alloc: Global,
    clerk: u32,
    office: &mut Office,
    source: &mut S,
    sink: &mut W,
    clock: &C,
    keeper: &mut K,
) -> ExitStatus
    requires least { 1 ≤ clerk }
    requires most { clerk ≤ 9999 }
    requires told { IsOpen K.Keeper office.old keeper.old }
    requires capacity { office.old.capacity ≡ largest }
    ensures imported { Imported clerk (C.may_show clock.now) office.old.book office.new.book
        (door (S.left source.old) (W.held sink.old) (S.faults source.old) (W.faults sink.old) (K.faults keeper.old))
        (door (S.left source.new) (W.held sink.new) (S.faults source.new) (W.faults sink.new) (K.faults keeper.new)) result }
    ensures stays { StaysOpen K.Keeper office.old keeper.old office.new keeper.new }
    ensures stopped { Outlives (LeavesByInput clerk (C.may_show clock.now) (S.left source.old))
        (K.holds keeper.old) (K.leaves keeper.old) (K.tells_crash keeper.old) (K.holds keeper.new) (K.leaves keeper.new) (K.tells_crash keeper.new) }
{
    match read_up_to(alloc, source, IMPORT_LIMIT) {
        Input::Whole(input) => answer_input(alloc, clerk, &input, office, sink, clock, keeper),
        Input::TooLong => ExitStatus::TooLong,
        Input::Failed => ExitStatus::ReadFault,
        Input::NoMemory => ExitStatus::NoMemory,
    }
}

/// Answers the rows of an input, and gives the status.
fn answer_input<K: Keeper, W: Sink, C: Clock>(
    alloc: Global,
    clerk: u32,
    input: &[u8],
    office: &mut Office,
    sink: &mut W,
    clock: &C,
    keeper: &mut K,
) -> ExitStatus
    requires least { 1 ≤ clerk }
    requires most { clerk ≤ 9999 }
    requires told { IsOpen K.Keeper office.old keeper.old }
    requires capacity { office.old.capacity ≡ largest }
    ensures answered { (left left_now : Option (List ℕ)) (source source_now : ℕ) → source_now ≡ source →
        AnswersInput clerk (C.may_show clock.now) input.now office.old.book office.new.book
        (door left (W.held sink.old) source (W.faults sink.old) (K.faults keeper.old))
        (door left_now (W.held sink.new) source_now (W.faults sink.new) (K.faults keeper.new)) result }
    ensures stays { StaysOpen K.Keeper office.old keeper.old office.new keeper.new }
    ensures stopped { Outlives (LeavesByInput clerk (C.may_show clock.now) (Some input.now))
        (K.holds keeper.old) (K.leaves keeper.old) (K.tells_crash keeper.old) (K.holds keeper.new) (K.leaves keeper.new) (K.tells_crash keeper.new) }
{
    match applicants_of_csv(alloc, input, clerk) {
        Ok(rows) => status_of(answer_rows(alloc, office, rows, sink, clock, keeper)),
        Err(ImportFault::BadHeader) => finish(sink, ExitStatus::Refused, OTHER_HEADER),
        Err(ImportFault::NoMemory) => ExitStatus::NoMemory,
    }
}
