//! The program, by its words; and the command `assess`.

ghost use Rattle.std.specs.Prelude.{◌≡◌, ◌≢◌, ◌≤◌, ℕ, false, List, length, Some, None, IfSome};
ghost use Rattle.std.specs.Io.KnownBytes.{Consumes};
ghost use Rattle.office_io.specs.Outside.{Faulted};
ghost use Rattle.office_io.specs.Transfer.{Takes};
ghost use Rattle.assess_command.specs.Assess.{assessed};
ghost use Rattle.program_answers.specs.Answer.{Ends};
ghost use Rattle.office_prog.specs.Task.{task_in, asks_keeper};
ghost use Rattle.office_prog.specs.declared.task.Task.TheVariants as task;
ghost use Rattle.office_prog.specs.declared.report.Report.{Report};
ghost use Rattle.office_prog.specs.Run.{usage, input_limit, assess_answer, answer_of, made_answer, trial_answer};
ghost use Rattle.batch_command.specs.Batch.{LeavesByLine};
ghost use Rattle.batch_command.specs.Below.clerk_desk.Serving.{Outlives};
ghost use Rattle.program_answers.specs.Keeping.{StillTells, OutlivesStops};
ghost use Rattle.program_answers.specs.Opening.{ComesOfBook, door, largest};
ghost use Rattle.office_prog.specs.Batch.{Batched};
ghost use Rattle.office_prog.specs.Report.{Reported};
ghost use Rattle.office_prog.specs.Import.{Imported, LeavesByInput};
ghost use Rattle.office_io.specs.declared.status.ExitStatus.TheVariants as exit;

use crate::batch::run_batch;
use crate::import::run_import;
use crate::made::{run_make, run_trial};
use crate::report::run_report;
use crate::task::{Task, task_in};
use assess_command::{Assessed, assess};
use keeper_core::Keeper;
use office_io::{Clock, ExitStatus, Input, Sink, Source, read_up_to};
use program_answers::finish;
use std::alloc::Global;

/// The most bytes of an assess object.
const INPUT_LIMIT: usize = 16_384;

/// How the program is used.
const USAGE: &[u8] =
    b"usage: office [--book PATH] assess|batch|voucher MONTH|export|import CLERK|due DAY|targets DAY|make N|trial N|serve PORT WORKERS CONNECTIONS\n";

/// Runs the program that the words name, and tells how it ended.
pub fn run<K: Keeper, S: Source, W: Sink, C: Clock>(
    alloc: Global,
    words: &[String],
    source: &mut S,
    sink: &mut W,
    clock: &C,
    keeper: &mut K,
) -> ExitStatus
    // Other words than the program's own are answered with its usage, and nothing is read.
    ensures usage { task_in words.now ≡ None → result ≢ exit.NoMemory →
        Ends usage (W.held sink.old) (W.held sink.new) (W.faults sink.old) (W.faults sink.new) result }
    ensures usage_no_memory { task_in words.now ≡ None → result ≡ exit.NoMemory → sink.new ≡ sink.old }
    ensures unread { task_in words.now ≡ None → source.new ≡ source.old }

    // Only what asks the keeper changes it.
    ensures unkept { asks_keeper (task_in words.now) ≡ false → keeper.new ≡ keeper.old }

    // A keeper that is well tells a book at the end, if it told one.
    ensures tells_on { StillTells (K.holds keeper.old) (K.is_well keeper.new) (K.holds keeper.new) }

    // What a stop of the machine leaves from then on: the acts that are kept, or these and one more, which a line of the
    // batch or a row of the import would have made.
    ensures stopped { OutlivesStops (K.holds keeper.old) (K.leaves keeper.old) (K.tells_crash keeper.old)
        (K.holds keeper.new) (K.leaves keeper.new) (K.tells_crash keeper.new) }
    ensures batch_stopped { task_in words.now ≡ Some task.Batch →
        Outlives (LeavesByLine largest (C.may_show clock.now) (S.left source.old))
        (K.holds keeper.old) (K.leaves keeper.old) (K.tells_crash keeper.old) (K.holds keeper.new) (K.leaves keeper.new) (K.tells_crash keeper.new) }
    ensures import_stopped { (clerk : ℕ) → task_in words.now ≡ Some (task.Import clerk) →
        Outlives (LeavesByInput clerk (C.may_show clock.now) (S.left source.old))
        (K.holds keeper.old) (K.leaves keeper.old) (K.tells_crash keeper.old) (K.holds keeper.new) (K.leaves keeper.new) (K.tells_crash keeper.new) }

    // `assess` answers the bytes that it took, which are the whole input or one byte more than its limit.
    ensures assess { task_in words.now ≡ Some task.Assess → result ≢ exit.ReadFault → result ≢ exit.NoMemory →
        (input : List ℕ) × Takes input_limit (S.left source.old) (S.left source.new) input
        × (S.faults source.new ≡ S.faults source.old)
        × Ends (assess_answer input) (W.held sink.old) (W.held sink.new) (W.faults sink.old) (W.faults sink.new) result }
    ensures told { task_in words.now ≡ Some task.Assess → result ≢ exit.ReadFault → result ≢ exit.NoMemory → IfSome (S.left source.old) (λ input.
        Ends (assess_answer input) (W.held sink.old) (W.held sink.new) (W.faults sink.old) (W.faults sink.new) result) }

    // It writes nothing where the source failed or memory ran out.
    ensures read_fault { task_in words.now ≡ Some task.Assess → result ≡ exit.ReadFault →
        Faulted (S.faults source.old) (S.faults source.new) × (sink.new ≡ sink.old) }
    ensures taken_at_fault { task_in words.now ≡ Some task.Assess → result ≡ exit.ReadFault →
        (input : List ℕ) × (length input ≤ input_limit) × Consumes (S.left source.old) (S.left source.new) input }
    ensures no_memory { task_in words.now ≡ Some task.Assess → result ≡ exit.NoMemory →
        (S.faults source.new ≡ S.faults source.old) × (sink.new ≡ sink.old) }

    // `batch` answers the lines of the input on the book that the keeper tells, and keeps each act before its reply.
    ensures batch { task_in words.now ≡ Some task.Batch →
        ComesOfBook (Batched (C.may_show clock.now)) (K.holds keeper.old) (K.holds keeper.new) (K.bad keeper.new)
        (door (S.left source.old) (W.held sink.old) (S.faults source.old) (W.faults sink.old) (K.faults keeper.old))
        (door (S.left source.new) (W.held sink.new) (S.faults source.new) (W.faults sink.new) (K.faults keeper.new)) result }

    // A report is a function of the book that the keeper tells, which stays. Nothing is read.
    ensures report { (report : Report) → task_in words.now ≡ Some (task.Report report) →
        ComesOfBook (Reported report) (K.holds keeper.old) (K.holds keeper.new) (K.bad keeper.new)
        (door (S.left source.old) (W.held sink.old) (S.faults source.old) (W.faults sink.old) (K.faults keeper.old))
        (door (S.left source.new) (W.held sink.new) (S.faults source.new) (W.faults sink.new) (K.faults keeper.new)) result }

    // `make` writes the lines of a made office. Nothing is read.
    ensures make { (households : ℕ) → task_in words.now ≡ Some (task.Make households) → result ≢ exit.NoMemory →
        Ends (made_answer households) (W.held sink.old) (W.held sink.new) (W.faults sink.old) (W.faults sink.new) result }
    ensures make_unread { (households : ℕ) → task_in words.now ≡ Some (task.Make households) → source.new ≡ source.old }
    ensures make_no_memory { (households : ℕ) → task_in words.now ≡ Some (task.Make households) → result ≡ exit.NoMemory → sink.new ≡ sink.old }

    // `trial` sums up what these lines come to on an office in memory. Nothing is read.
    ensures trial { (households : ℕ) → task_in words.now ≡ Some (task.Trial households) → result ≢ exit.NoMemory →
        Ends (trial_answer households) (W.held sink.old) (W.held sink.new) (W.faults sink.old) (W.faults sink.new) result }
    ensures trial_unread { (households : ℕ) → task_in words.now ≡ Some (task.Trial households) → source.new ≡ source.old }
    ensures trial_no_memory { (households : ℕ) → task_in words.now ≡ Some (task.Trial households) → result ≡ exit.NoMemory → sink.new ≡ sink.old }

    // `import` answers each row under the header as the clerk's call, as a batch answers its lines.
    ensures import { (clerk : ℕ) → task_in words.now ≡ Some (task.Import clerk) →
        ComesOfBook (Imported clerk (C.may_show clock.now)) (K.holds keeper.old) (K.holds keeper.new) (K.bad keeper.new)
        (door (S.left source.old) (W.held sink.old) (S.faults source.old) (W.faults sink.old) (K.faults keeper.old))
        (door (S.left source.new) (W.held sink.new) (S.faults source.new) (W.faults sink.new) (K.faults keeper.new)) result }
{
    let Ok(task) = task_in(alloc, words) else {
        return ExitStatus::NoMemory;
    };
    match task {
        Some(Task::Assess) => read_and_assess(alloc, source, sink),
        Some(Task::Batch) => run_batch(alloc, source, sink, clock, keeper),
        Some(Task::Report(report)) => run_report(alloc, report, sink, keeper),
        Some(Task::Import(clerk)) => run_import(alloc, clerk, source, sink, clock, keeper),
        Some(Task::Make(households)) => run_make(alloc, households, sink),
        Some(Task::Trial(households)) => run_trial(alloc, households, sink),
        None => finish(sink, ExitStatus::BadWords, USAGE),
    }
}

fn read_and_assess<S: Source, W: Sink>(alloc: Global, source: &mut S, sink: &mut W) -> ExitStatus
    ensures assess { result ≢ exit.ReadFault → result ≢ exit.NoMemory →
        (input : List ℕ) × Takes input_limit (S.left source.old) (S.left source.new) input
        × (S.faults source.new ≡ S.faults source.old)
        × Ends (assess_answer input) (W.held sink.old) (W.held sink.new) (W.faults sink.old) (W.faults sink.new) result }
    ensures told { result ≢ exit.ReadFault → result ≢ exit.NoMemory → IfSome (S.left source.old) (λ input.
        Ends (assess_answer input) (W.held sink.old) (W.held sink.new) (W.faults sink.old) (W.faults sink.new) result) }
    ensures read_fault { result ≡ exit.ReadFault → Faulted (S.faults source.old) (S.faults source.new) × (sink.new ≡ sink.old) }
    ensures taken_at_fault { result ≡ exit.ReadFault →
        (input : List ℕ) × (length input ≤ input_limit) × Consumes (S.left source.old) (S.left source.new) input }
    ensures no_memory { result ≡ exit.NoMemory → (S.faults source.new ≡ S.faults source.old) × (sink.new ≡ sink.old) }
{
    match read_up_to(alloc, source, INPUT_LIMIT) {
        Input::Whole(input) => run_assess(alloc, &input, sink),
        Input::TooLong => finish(sink, ExitStatus::TooLong, b""),
        Input::Failed => ExitStatus::ReadFault,
        Input::NoMemory => ExitStatus::NoMemory,
    }
}

fn run_assess<W: Sink>(alloc: Global, input: &[u8], sink: &mut W) -> ExitStatus
    ensures answered { result ≢ exit.NoMemory → Ends (answer_of (assessed input.now)) (W.held sink.old) (W.held sink.new)
        (W.faults sink.old) (W.faults sink.new) result }
    ensures no_memory { result ≡ exit.NoMemory → sink.new ≡ sink.old }
    ensures read { result ≢ exit.ReadFault }
{
    match assess(alloc, input) {
        Ok(Assessed::Paid(text)) => finish(sink, ExitStatus::Done, text.as_bytes()),
        Ok(Assessed::Refused(text)) => finish(sink, ExitStatus::Refused, text.as_bytes()),
        Err(_) => ExitStatus::NoMemory,
    }
}
