//! The last answer of a run, with its exit status.

ghost use Rattle.program_answers.specs.Answer.{Ends};

use office_io::{ExitStatus, Sink, write_whole};

/// Writes the text of an answer and gives its status, or that of a write fault if the sink fails.
pub fn finish<W: Sink>(sink: &mut W, status: ExitStatus, text: &[u8]) -> ExitStatus
    ensures { Ends (record { status = status; text = text.now }) (W.held sink.old) (W.held sink.new)
        (W.faults sink.old) (W.faults sink.new) result }
{
    if write_whole(sink, text) {
        status
    } else {
        ExitStatus::WriteFault
    }
}
