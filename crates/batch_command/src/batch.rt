//! The lines of a source, answered one after another.

ghost use Rattle.std.specs.Prelude.{◌≡◌};
ghost use Rattle.clerk_desk.specs.OpenBook.{IsOpen, StaysOpen};
ghost use Rattle.clerk_desk.specs.Serving.{Outlives};
ghost use Rattle.batch_command.specs.Answers.{Blames};
ghost use Rattle.batch_command.specs.Batch.{LinesRan, LeavesByLine, ending_of};

use crate::Ending;
use crate::line::answer_line;
use clerk_desk::office_core::Office;
use keeper_core::Keeper;
use line_input::{LineReader, Next};
use office_io::{Clock, Sink, Source};
use std::alloc::Global;

/// The most bytes of a line, without its end.
const LINE_LIMIT: usize = 16_384;

/// The most lines, whether or not they are passed over.
const MOST_LINES: u32 = 200_000;

/// Answers the lines of a source, one after another. An answer is written once its act is kept.
pub fn answer_lines<K: Keeper, S: Source, W: Sink, C: Clock>(
    alloc: Global,
    office: &mut Office,
    source: &mut S,
    sink: &mut W,
    clock: &C,
    keeper: &mut K,
) -> Ending
    requires told { IsOpen K.Keeper office.old keeper.old }
    ensures ran { LinesRan office.old.capacity (C.may_show clock.now) office.old.book office.new.book
        (S.left source.old) (S.left source.new) (W.held sink.old) (W.held sink.new) result }
    ensures stays { StaysOpen K.Keeper office.old keeper.old office.new keeper.new }
    ensures blames { Blames
        (record { source = S.faults source.old; sink = W.faults sink.old; keeper = K.faults keeper.old })
        (record { source = S.faults source.new; sink = W.faults sink.new; keeper = K.faults keeper.new }) result }
    ensures stopped { Outlives (LeavesByLine office.old.capacity (C.may_show clock.now) (S.left source.old))
        (K.holds keeper.old) (K.leaves keeper.old) (K.tells_crash keeper.old) (K.holds keeper.new) (K.leaves keeper.new) (K.tells_crash keeper.new) }
{
    let Ok(mut reader) = LineReader::new(alloc) else {
        return Ending::NoMemory;
    };
    for _ in 0..MOST_LINES {
        match reader.next(source, LINE_LIMIT) {
            Next::Line => {
                if let Some(ending) = answer_line(
                    alloc,
                    office,
                    reader.line(),
                    sink,
                    clock,
                    keeper,
                ) {
                    return ending;
                }
            }
            Next::Last => {
                return answer_line(alloc, office, reader.line(), sink, clock, keeper).unwrap_or(
                    Ending::Done,
                );
            }
            Next::End => return Ending::Done,
            Next::TooLong => return Ending::TooLong,
            Next::Failed => return Ending::ReadFault,
            Next::NoMemory => return Ending::NoMemory,
        }
    }
    without_line(reader.next(source, LINE_LIMIT))
}

/// How a batch ends where no line is answered any more.
fn without_line(next: Next) -> Ending
    ensures { result ≡ ending_of next }
{
    match next {
        Next::End => Ending::Done,
        Next::Line | Next::Last | Next::TooLong => Ending::TooLong,
        Next::Failed => Ending::ReadFault,
        Next::NoMemory => Ending::NoMemory,
    }
}
