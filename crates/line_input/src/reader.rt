//! Lines, cut from a source however its reads fall.

ghost use Rattle.std.specs.Prelude.{◌≡◌, None, false, IfSome};
ghost use Rattle.line_input.specs.Lines.{has_end, EndsAt};

use crate::more::More;
use memchr::memchr;
use office_io::{Got, Source};
use plain_data::NoMemory;
use std::alloc::Global;
use std::marker::Model;

/// The most bytes that one read asks for.
const CHUNK: usize = 8_192;

/// What came of the next line.
#[derive(Clone, Copy, Debug, PartialEq, Eq)]
pub enum Next {
    /// A line, whose end was read too.
    Line,
    /// The last line, which lacks its end.
    Last,
    /// Nothing, since the source is at its end.
    End,
    /// Nothing, since the line is too long.
    TooLong,
    /// Nothing, since a read failed.
    Failed,
    /// Memory ran out, and what was read last is lost.
    NoMemory,
}

/// Reads a source line by line. It holds what it has read beyond the line that it came to.
///
/// Contracts see that line and the bytes behind it.
#[derive(Debug, Drop)]
pub struct LineReader {
    held: Vec<u8>,
    // The line is from `start` to `end` of what is held, and what is behind it from `rest` on.
    start: usize,
    end: usize,
    rest: usize,
    chunk: Vec<u8>,
}

impl Model for LineReader {
    ghost use Rattle.std.specs.Prelude.{◌≤◌, ◌<◌, length, drop, slice_range};
    ghost use Rattle.line_input.specs.Reading.{Reading};

    ghost Value = { Reading };

    ghost view = { λ reader. record {
      line = slice_range reader.held.items reader.start reader.end;
      rest = drop reader.rest reader.held.items;
    } };

    ghost invariant = { λ reader. (reader.start ≤ reader.end) × (reader.end ≤ reader.rest)
        × (reader.rest ≤ length reader.held.items) × (0 < length reader.chunk.items) };
}

impl LineReader {
    ghost use Rattle.std.specs.Prelude.{◌≡◌, ◌≤◌, ◌<◌, ◌++◌, ◌∷◌, ◌⊎◌, [], length, false, None, IfOk, IfSome, OnOk};
    ghost use Rattle.std.specs.Io.KnownBytes.{prepend_known};
    ghost use Rattle.line_input.specs.Lines.{has_end};
    ghost use Rattle.line_input.specs.Reading.{Comes, NextCause, TakesHeld, Grows, MoreCause};

    pub fn new(alloc: Global) -> Result<LineReader, NoMemory>
        ensures { IfOk result (λ reader. reader.rest ≡ []) }
    {
        Ok(LineReader {
            held: Vec::new(alloc),
            start: 0,
            end: 0,
            rest: 0,
            chunk: vec![in alloc; 0u8; CHUNK]?,
        })
    }

    /// The line that it came to, without its end.
    pub fn line(&self) -> &[u8]
        ensures { result.now ≡ self.now.line }
    {
        &self.held[self.start..self.end]
    }

    /// Comes to the next line of the source, which may have at most `most` bytes.
    pub fn next<S: Source>(&mut self, source: &mut S, most: usize) -> Next
        ensures comes { Comes most (prepend_known self.old.rest (S.left source.old)) (prepend_known self.new.rest (S.left source.new)) self.new result }
        ensures cause { NextCause (S.faults source.old) (S.faults source.new) result }
    {
        if let Some(next) = self.held_line(most) {
            return next;
        }
        self.pack();
        while self.behind().len() <= most {
            match self.more(source) {
                More::Bytes => {
                    if let Some(next) = self.held_line(most) {
                        return next;
                    }
                }
                More::End => return self.last_line(),
                More::Failed => return Next::Failed,
                More::NoMemory => return Next::NoMemory,
            }
        }
        Next::TooLong
    }

    /// What is held behind the line.
    fn behind(&self) -> &[u8]
        ensures { result.now ≡ self.now.rest }
    {
        &self.held[self.rest..]
    }

    /// Reads once, and holds what comes.
    fn more<S: Source>(&mut self, source: &mut S) -> More
        ensures grows { Grows (S.left source.old) (S.left source.new) self.old.rest self.new.rest result }
        ensures cause { MoreCause (S.faults source.old) (S.faults source.new) result }
    {
        match source.read(&mut self.chunk) {
            Got::Bytes(count) => match self.held.extend_from_slice(&self.chunk[..count]) {
                Ok(()) => More::Bytes,
                Err(_) => More::NoMemory,
            },
            Got::End => More::End,
            Got::Failed => More::Failed,
        }
    }

    /// Comes to the next line of those that are held whole, if there is one, unless it is too long.
    fn held_line(&mut self, most: usize) -> Option<Next>
        ensures none { result ≡ None → (self.new ≡ self.old) × (has_end self.old.rest ≡ false) }
        ensures some { IfSome result (TakesHeld most self.old self.new) }
    {
        let count = end_in(self.behind())?;
        if count > most {
            return Some(Next::TooLong);
        }
        self.start = self.rest;
        self.end = self.rest + count;
        self.rest = self.end + 1;
        Some(Next::Line)
    }

    /// Comes to what is held as the last line, if anything is.
    fn last_line(&mut self) -> Next
        ensures end { result ≡ Next.End → (self.old.rest ≡ []) × (self.new.rest ≡ []) }
        ensures last { result ≡ Next.Last → (self.new.line ≡ self.old.rest) × (self.new.rest ≡ []) × (0 < length self.new.line) }
        ensures either { (result ≡ Next.End) ⊎ (result ≡ Next.Last) }
    {
        if self.rest == self.held.len() {
            return Next::End;
        }
        self.start = self.rest;
        self.end = self.held.len();
        self.rest = self.end;
        Next::Last
    }

    /// Forgets the lines that it has passed.
    fn pack(&mut self)
        ensures { self.new.rest ≡ self.old.rest }
    {
        let left = self.held.len() - self.rest;
        self.held.rotate_left(self.rest);
        self.held.truncate(left);
        self.start = 0;
        self.end = 0;
        self.rest = 0;
    }
}

/// Where the first line feed of the bytes is.
fn end_in(bytes: &[u8]) -> Option<usize>
    ensures none { result ≡ None → has_end bytes.now ≡ false }
    ensures some { IfSome result (EndsAt bytes.now) }
{
    memchr(b'\n', bytes)
}
