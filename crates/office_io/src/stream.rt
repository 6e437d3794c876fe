//! Streams of the system.

use crate::{Got, Put, Sink, Source};
use std::io::{Read, Write};
use std::marker::Model;

/// The bytes of a reader of std, as the program takes them from the outside.
///
/// Each error of the reader is a fault. Contracts see the reader and the count of faults.
#[derive(Debug, Drop)]
pub struct StreamSource<R> {
    reader: R,
    faults: u64,
}

impl<R> Model for StreamSource<R> {
    ghost use Rattle.office_io.specs.Outside.{Counted};

    ghost Value = { Counted R };

    ghost view = { λ source. record { stream = source.reader; faults = source.faults } };
}

impl<R> StreamSource<R> {
    ghost use Rattle.std.specs.Prelude.{◌≡◌};

    /// The bytes of this reader.
    pub fn new(reader: R) -> StreamSource<R>
        ensures { result ≡ record { stream = reader; faults = 0 } }
    {
        StreamSource { reader, faults: 0 }
    }

    /// The faults so far.
    pub fn faults(&self) -> u64
        ensures { result ≡ self.now.faults }
    {
        self.faults
    }
}

impl<R: Read> Source for StreamSource<R> {
    ghost left = { λ source. R.remaining source.stream };

    ghost faults = { λ source. source.faults };

    fn read(&mut self, buffer: &mut [u8]) -> Got {
        match self.reader.read(buffer) {
            Ok(0) => Got::End,
            Ok(count) => Got::Bytes(count),
            Err(_) => {
                self.faults = self.faults.saturating_add(1);
                Got::Failed
            }
        }
    }
}

/// The bytes that go to a writer of std, as the program sends them to the outside.
///
/// Each error of the writer is a fault, and so is a write that takes nothing. What is written is not kept here, so hand
/// in a writer with no buffer of its own: it could fail later, where no count would tell. Contracts see the writer and
/// the count of faults.
#[derive(Debug, Drop)]
pub struct StreamSink<W> {
    writer: W,
    faults: u64,
}

impl<W> Model for StreamSink<W> {
    ghost use Rattle.office_io.specs.Outside.{Counted};

    ghost Value = { Counted W };

    ghost view = { λ sink. record { stream = sink.writer; faults = sink.faults } };
}

impl<W> StreamSink<W> {
    ghost use Rattle.std.specs.Prelude.{◌≡◌};

    /// The bytes that go to this writer.
    pub fn new(writer: W) -> StreamSink<W>
        ensures { result ≡ record { stream = writer; faults = 0 } }
    {
        StreamSink { writer, faults: 0 }
    }

    /// The faults so far.
    pub fn faults(&self) -> u64
        ensures { result ≡ self.now.faults }
    {
        self.faults
    }
}

impl<W: Write> Sink for StreamSink<W> {
    ghost held = { λ sink. W.contents sink.stream };

    ghost faults = { λ sink. sink.faults };

    fn write(&mut self, piece: &[u8]) -> Put {
        match self.writer.write(piece) {
            Ok(count) if count > 0 => Put::Bytes(count),
            _ => {
                self.faults = self.faults.saturating_add(1);
                Put::Failed
            }
        }
    }
}
