//! The bytes that were read and not yet given.

ghost use Rattle.std.specs.Prelude.{◌≡◌, ◌≤◌, ◌<◌, [], length, drop, IfOk};
ghost use Rattle.http_messages.specs.Reads.{Receives, MoreCause};

use office_io::{Got, Source};
use plain_data::NoMemory;
use std::alloc::Global;
use std::marker::Model;

/// The most bytes of a head and of a body together.
const ROOM: usize = 32_768;

/// The most bytes that one read asks for.
const READ: usize = 4_096;

/// What came of one read.
#[derive(Clone, Copy, Debug)]
pub(crate) enum More {
    /// At least one byte.
    Bytes,
    /// Nothing, since the source is at its end.
    End,
    /// Nothing, since the read failed.
    Failed,
}

/// The bytes that were read and not yet given. Their room is taken at once.
#[derive(Debug, Drop)]
pub(crate) struct Buffer {
    bytes: Vec<u8>,
}

impl Model for Buffer {
    ghost use Rattle.std.specs.Prelude.{ℕ, List, ◌≤◌, vec_len, vec_capacity};

    ghost Value = { List ℕ };

    ghost view = { λ buffer. buffer.bytes.items };

    ghost invariant = { λ buffer. (vec_len buffer.bytes ≤ 32768) × (32768 ≤ vec_capacity buffer.bytes) };
}

impl Buffer {
    pub(crate) fn new(alloc: Global) -> Result<Buffer, NoMemory>
        ensures { IfOk result (λ buffer. buffer ≡ []) }
    {
        Ok(Buffer {
            bytes: Vec::with_capacity(alloc, ROOM)?,
        })
    }

    pub(crate) fn as_slice(&self) -> &[u8]
        ensures { result.now ≡ self.now }
    {
        &self.bytes
    }

    pub(crate) fn len(&self) -> usize
        ensures { result ≡ length self.now }
    {
        self.bytes.len()
    }

    /// Reads once, until at most so many bytes are held.
    pub(crate) fn receive<S: Source>(&mut self, source: &mut S, most: usize) -> More
        requires room { length self.old < most }
        requires fits { most ≤ 32768 }
        ensures receives { Receives self.old self.new (S.left source.old) (S.left source.new) result }
        ensures bounded { length self.new ≤ most }
        ensures cause { MoreCause (S.faults source.old) (S.faults source.new) result }
    {
        let mut piece = [0; READ];
        let room = (most - self.bytes.len()).min(READ);
        match source.read(&mut piece[..room]) {
            Got::Bytes(count) => {
                // The room was taken in `new`, so this cannot fail.
                let _ = self.bytes.extend_from_slice(&piece[..count]);
                More::Bytes
            }
            Got::End => More::End,
            Got::Failed => More::Failed,
        }
    }

    /// Forgets the first `count` bytes.
    pub(crate) fn drop_front(&mut self, count: usize)
        requires { count ≤ length self.old }
        ensures { self.new ≡ drop count self.old }
    {
        let left = self.bytes.len() - count;
        self.bytes.rotate_left(count);
        self.bytes.truncate(left);
    }
}
