//! The commands `make` and `trial`.

ghost use Rattle.std.specs.Prelude.{◌≡◌, ◌≢◌};
ghost use Rattle.program_answers.specs.Answer.{Ends};
ghost use Rattle.office_prog.specs.Run.{made_answer, trial_answer};
ghost use Rattle.office_io.specs.declared.status.ExitStatus.TheVariants as exit;

use generator::made_lines;
use office_io::{ExitStatus, Sink};
use program_answers::{LARGEST, finish};
use simulation::trial;
use std::alloc::Global;

/// Writes the lines of a made office of so many households, and gives the status.
pub fn run_make<W: Sink>(alloc: Global, households: u32, sink: &mut W) -> ExitStatus
    ensures made { result ≢ exit.NoMemory → Ends (made_answer households) (W.held sink.old) (W.held sink.new)
        (W.faults sink.old) (W.faults sink.new) result }
    ensures no_memory { result ≡ exit.NoMemory → sink.new ≡ sink.old }
{
    match made_lines(alloc, households) {
        Ok(text) => finish(sink, ExitStatus::Done, text.as_bytes()),
        Err(_) => ExitStatus::NoMemory,
    }
}

/// Answers these lines on an office in memory, writes what that comes to, and gives the status.
pub fn run_trial<W: Sink>(alloc: Global, households: u32, sink: &mut W) -> ExitStatus
    ensures trial { result ≢ exit.NoMemory → Ends (trial_answer households) (W.held sink.old) (W.held sink.new)
        (W.faults sink.old) (W.faults sink.new) result }
    ensures no_memory { result ≡ exit.NoMemory → sink.new ≡ sink.old }
{
    match trial(alloc, LARGEST, households) {
        Ok(text) => finish(sink, ExitStatus::Done, text.as_bytes()),
        Err(_) => ExitStatus::NoMemory,
    }
}
