//! Sources and sinks in memory, which can be told to fail.

use crate::{Got, Put, Sink, Source};
use plain_data::NoMemory;
use std::alloc::Global;
use std::marker::Model;

// Which calls fail, and how many calls and faults there were.
#[derive(Debug, Drop)]
struct Plan {
    failing: Vec<u64>,
    most: usize,
    calls: u64,
    faults: u64,
}

impl Model for Plan {
    ghost use Rattle.std.specs.Prelude.{◌<◌};
    ghost use Rattle.office_io.specs.Memory.{Planned};

    ghost Value = { Planned };

    ghost view = { λ plan. record {
      failing = plan.failing.items;
      most = plan.most;
      calls = plan.calls;
      faults = plan.faults;
    } };

    ghost invariant = { λ plan. 0 < plan.most };
}

impl Plan {
    ghost use Rattle.std.specs.Prelude.{◌≡◌, ◌<◌};
    ghost use Rattle.office_io.specs.Outside.{Faulted};
    ghost use Rattle.office_io.specs.Memory.{is_failing, called, faulted};

    fn new(failing: Vec<u64>, most: usize) -> Plan
        requires { 0 < most }
        ensures { result ≡ record { failing = failing.items; most = most; calls = 0; faults = 0 } }
    {
        Plan {
            failing,
            most,
            calls: 0,
            faults: 0,
        }
    }

    fn most(&self) -> usize
        ensures value { result ≡ self.now.most }
        ensures some { 0 < result }
    {
        self.most
    }

    fn faults(&self) -> u64
        ensures { result ≡ self.now.faults }
    {
        self.faults
    }

    fn is_failing(&self) -> bool
        ensures { result ≡ is_failing self.now }
    {
        self.failing.contains(&self.calls)
    }

    fn count_call(&mut self)
        ensures { self.new ≡ called self.old }
    {
        self.calls = self.calls.saturating_add(1);
    }

    fn count_fault(&mut self)
        ensures after { self.new ≡ faulted self.old }
        ensures fault { Faulted self.old.faults self.new.faults }
    {
        self.calls = self.calls.saturating_add(1);
        self.faults = self.faults.saturating_add(1);
    }
}

/// A source of given bytes, some of whose calls fail by plan.
///
/// Contracts see the bytes that are left and the plan.
#[derive(Debug, Drop)]
pub struct MemorySource {
    bytes: Vec<u8>,
    at: usize,
    plan: Plan,
}

impl Model for MemorySource {
    ghost use Rattle.std.specs.Prelude.{◌≤◌, drop, vec_len};
    ghost use Rattle.office_io.specs.Memory.{Given};

    ghost Value = { Given };

    ghost view = { λ source. record { left = drop source.at source.bytes.items; plan = source.plan } };

    ghost invariant = { λ source. source.at ≤ vec_len source.bytes };
}

impl MemorySource {
    ghost use Rattle.std.specs.Prelude.{◌≡◌, ◌<◌};

    /// A source of these bytes. The calls of `read` with the numbers in `failing` fail, counted from 0, and one call
    /// gives at most `most` bytes.
    pub fn new(bytes: Vec<u8>, failing: Vec<u64>, most: usize) -> MemorySource
        requires { 0 < most }
        ensures { result ≡ record {
          left = bytes.items;
          plan = record { failing = failing.items; most = most; calls = 0; faults = 0 };
        } }
    {
        MemorySource {
            bytes,
            at: 0,
            plan: Plan::new(failing, most),
        }
    }

    /// The faults so far.
    pub fn faults(&self) -> u64
        ensures { result ≡ self.now.plan.faults }
    {
        self.plan.faults()
    }
}

impl Source for MemorySource {
    ghost use Rattle.std.specs.Prelude.{◌≡◌, ◌<◌, length, Some};
    ghost use Rattle.office_io.specs.Outside.{Reads, ReadCause};
    ghost use Rattle.office_io.specs.Memory.{read_answer, after_read};

    ghost left = { λ source. Some source.left };

    ghost faults = { λ source. source.plan.faults };

    fn read(&mut self, buffer: &mut [u8]) -> Got
        requires { 0 < length buffer.old }
        ensures bytes { Reads (Some self.old.left) (Some self.new.left) buffer.new result }
        ensures cause { ReadCause self.old.plan.faults self.new.plan.faults result }
        ensures answer { result ≡ read_answer self.old (length buffer.old) }
        ensures after { self.new ≡ after_read self.old (length buffer.old) }
    {
        if self.plan.is_failing() {
            self.plan.count_fault();
            return Got::Failed;
        }
        self.plan.count_call();
        let left = &self.bytes[self.at..];
        let count = left.len().min(buffer.len()).min(self.plan.most());
        if count == 0 {
            return Got::End;
        }
        buffer[..count].copy_from_slice(&left[..count]);
        self.at += count;
        Got::Bytes(count)
    }
}

/// A sink that holds what is written to it, up to its room, and some of whose calls fail by plan.
///
/// Contracts see the bytes that it holds, its room and the plan.
#[derive(Debug, Drop)]
pub struct MemorySink {
    bytes: Vec<u8>,
    room: usize,
    plan: Plan,
}

impl Model for MemorySink {
    ghost use Rattle.std.specs.Prelude.{◌≤◌, vec_len, vec_capacity};
    ghost use Rattle.office_io.specs.Memory.{Taken};

    ghost Value = { Taken };

    ghost view = { λ sink. record { held = sink.bytes.items; room = sink.room; plan = sink.plan } };

    ghost invariant = { λ sink. (vec_len sink.bytes ≤ sink.room) × (sink.room ≤ vec_capacity sink.bytes) };
}

impl MemorySink {
    ghost use Rattle.std.specs.Prelude.{◌≡◌, ◌<◌, [], IfOk};

    /// A sink with room for so many bytes. The calls of `write` with the numbers in `failing` fail, counted from 0, and
    /// one call takes at most `most` bytes.
    pub fn new(
        alloc: Global,
        room: usize,
        failing: Vec<u64>,
        most: usize,
    ) -> Result<MemorySink, NoMemory>
        requires { 0 < most }
        ensures { IfOk result (λ sink. sink ≡ record {
          held = [];
          room = room;
          plan = record { failing = failing.items; most = most; calls = 0; faults = 0 };
        }) }
    {
        Ok(MemorySink {
            bytes: Vec::with_capacity(alloc, room)?,
            room,
            plan: Plan::new(failing, most),
        })
    }

    /// The faults so far.
    pub fn faults(&self) -> u64
        ensures { result ≡ self.now.plan.faults }
    {
        self.plan.faults()
    }

    /// What was written.
    pub fn as_bytes(&self) -> &[u8]
        ensures { result.now ≡ self.now.held }
    {
        &self.bytes
    }

    /// What was written.
    pub fn into_bytes(self) -> Vec<u8>
        ensures { result.items ≡ self.held }
    {
        let MemorySink { bytes, .. } = self;
        bytes
    }
}

impl Sink for MemorySink {
    ghost use Rattle.std.specs.Prelude.{◌≡◌, ◌<◌, length, Some};
    ghost use Rattle.office_io.specs.Outside.{Writes, WriteCause};
    ghost use Rattle.office_io.specs.Memory.{write_answer, after_write};

    ghost held = { λ sink. Some sink.held };

    ghost faults = { λ sink. sink.plan.faults };

    fn write(&mut self, piece: &[u8]) -> Put
        requires { 0 < length piece.now }
        ensures bytes { Writes (Some self.old.held) (Some self.new.held) piece.now result }
        ensures cause { WriteCause self.old.plan.faults self.new.plan.faults result }
        ensures answer { result ≡ write_answer self.old piece.now }
        ensures after { self.new ≡ after_write self.old piece.now }
    {
        let room = self.room - self.bytes.len();
        let count = piece.len().min(room).min(self.plan.most());
        if self.plan.is_failing() || count == 0 {
            self.plan.count_fault();
            return Put::Failed;
        }
        // The room was taken in `new`, so this cannot fail.
        let _ = self.bytes.extend_from_slice(&piece[..count]);
        self.plan.count_call();
        Put::Bytes(count)
    }
}
