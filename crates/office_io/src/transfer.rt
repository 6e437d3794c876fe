//! Whole inputs are read, and whole pieces written.

ghost use Rattle.std.specs.Prelude.{◌≡◌, ℕ, ◌<◌, List, length, true, false, IsSome, IsNone, IfSome};
ghost use Rattle.std.specs.Io.KnownBytes.{Appends, Consumes};
ghost use Rattle.office_io.specs.Outside.{Faulted};
ghost use Rattle.office_io.specs.Transfer.{AppendsPart, Fills, InputTakes, InputTold, InputCause};

use crate::{Got, Put, Sink, Source};
use std::alloc::Global;

/// What came of reading a whole input.
#[derive(Debug, Drop)]
pub enum Input {
    /// All bytes, to the end of the source.
    Whole(Vec<u8>),
    /// More bytes came than were asked for.
    TooLong,
    /// A read failed.
    Failed,
    /// There is not the memory for the bytes, and none was read.
    NoMemory,
}

/// Reads a source to its end, which has to come after at most `most` bytes.
///
/// The room for one byte more is taken at once.
pub fn read_up_to<S: Source>(alloc: Global, source: &mut S, most: usize) -> Input
    ensures taken { InputTakes most (S.left source.old) (S.left source.new) result }
    ensures told { IfSome (S.left source.old) (λ told. InputTold most told result) }
    ensures cause { InputCause (S.faults source.old) (S.faults source.new) result }
    ensures untouched { result ≡ Input.NoMemory → source.new ≡ source.old }
{
    let Some(room) = most.checked_add(1) else {
        return Input::NoMemory;
    };
    let Ok(mut bytes) = vec![in alloc; 0u8; room] else {
        return Input::NoMemory;
    };
    match fill(source, &mut bytes) {
        Some(count) if count <= most => {
            bytes.truncate(count);
            Input::Whole(bytes)
        }
        Some(_) => Input::TooLong,
        None => Input::Failed,
    }
}

// Reads until the buffer is full or the source at its end, and answers how many bytes came, or None where a read
// failed.
fn fill<S: Source>(source: &mut S, buffer: &mut [u8]) -> Option<usize>
    ensures filled { IfSome result (λ count. Fills (S.left source.old) (S.left source.new) buffer.new count) }
    ensures kept { IsSome result → S.faults source.new ≡ S.faults source.old }
    ensures failed { IsNone result → (bytes : List ℕ) × (length bytes < length buffer.new)
        × Consumes (S.left source.old) (S.left source.new) bytes }
    ensures cause { IsNone result → Faulted (S.faults source.old) (S.faults source.new) }
{
    let mut count = 0;
    while count < buffer.len() {
        match source.read(&mut buffer[count..]) {
            Got::Bytes(more) => count += more,
            Got::End => return Some(count),
            Got::Failed => return None,
        }
    }
    Some(count)
}

/// Writes the whole piece. False says that a write failed, and then a front of the piece was written.
pub fn write_whole<W: Sink>(sink: &mut W, piece: &[u8]) -> bool
    ensures whole { result ≡ true → Appends (W.held sink.old) (W.held sink.new) piece.now }
    ensures kept { result ≡ true → W.faults sink.new ≡ W.faults sink.old }
    ensures part { result ≡ false → AppendsPart (W.held sink.old) (W.held sink.new) piece.now }
    ensures cause { result ≡ false → Faulted (W.faults sink.old) (W.faults sink.new) }
{
    let mut done = 0;
    while done < piece.len() {
        match sink.write(&piece[done..]) {
            Put::Bytes(count) => done += count,
            Put::Failed => return false,
        }
    }
    true
}
