//! Sources and sinks.

ghost use Rattle.std.specs.Prelude.{◌≤◌, ◌<◌, IfOk};

use days_core::Day;
use office_io::{
    Clock, FixedClock, Input, MemorySink, MemorySource, Sink, Source, StreamSink, StreamSource,
    SystemClock, read_up_to, write_whole,
};
use std::alloc::Global;
use std::io;
use std::process::Abort;

const TEXT: &[u8; 10] = b"0123456789";

/// The text, of which a read gives so many bytes at most.
fn source(rt: &impl Abort, alloc: Global, failing: &[u64], most: usize) -> MemorySource
    requires { 0 < most }
{
    let text = TEXT.to_vec(alloc).expect(rt, "memory");
    let calls = failing.to_vec(alloc).expect(rt, "memory");
    MemorySource::new(text, calls, most)
}

/// A sink for that many bytes, of which a write takes one.
fn sink(rt: &impl Abort, alloc: Global, room: usize, failing: &[u64]) -> MemorySink {
    let calls = failing.to_vec(alloc).expect(rt, "memory");
    MemorySink::new(alloc, room, calls, 1).expect(rt, "memory")
}

/// Whether a read up to so many bytes gives these.
fn gives<S: Source>(alloc: Global, source: &mut S, most: usize, wanted: &[u8]) -> bool {
    match read_up_to(alloc, source, most) {
        Input::Whole(bytes) => bytes.as_slice() == wanted,
        _ => false,
    }
}

/// Why a read up to so many bytes gives none.
fn fault<S: Source>(alloc: Global, source: &mut S, most: usize) -> &'static str {
    match read_up_to(alloc, source, most) {
        Input::Whole(_) => "none",
        Input::TooLong => "too long",
        Input::Failed => "failed",
        Input::NoMemory => "no memory",
    }
}

// The first call, one in mid-stream, and the one that would find the end: what a fault left is read later.
const READ_FAULTS: [(u64, &str); 3] = [(0, "0123456789"), (5, "56789"), (10, "")];

#[test]
fn reads_by_single_bytes_up_to_each_fault(rt: HostRuntime) {
    let alloc = rt.alloc();
    assert!(rt; gives(alloc, &mut source(&rt, alloc, &[], 1), 10, TEXT));
    let mut longer = source(&rt, alloc, &[], 4);
    assert!(rt; fault(alloc, &mut longer, 9) == "too long");
    assert!(rt; fault(alloc, &mut longer, usize::MAX) == "no memory");
    for (failing, left) in &READ_FAULTS {
        reads_after_a_fault(&rt, alloc, *failing, *left);
    }
}

fn reads_after_a_fault(rt: &impl Abort, alloc: Global, failing: u64, left: &str) {
    let mut source = source(rt, alloc, &[failing], 1);
    assert!(rt; fault(alloc, &mut source, 10) == "failed", "at {failing}");
    assert!(rt; source.faults() == 1);
    assert!(rt;
        gives(alloc, &mut source, 10, left.as_bytes()),
        "at {failing}"
    );
}

const WRITE_FAULTS: [(u64, &str); 3] = [(0, ""), (5, "01234"), (9, "012345678")];

#[test]
fn writes_by_single_bytes_up_to_each_fault(rt: HostRuntime) {
    let alloc = rt.alloc();
    writes_until_full(&rt, sink(&rt, alloc, 10, &[]));
    for (failing, held) in &WRITE_FAULTS {
        let mut sink = sink(&rt, alloc, 20, &[*failing]);
        assert!(rt; !write_whole(&mut sink, TEXT), "at {failing}");
        assert!(rt; sink.faults() == 1);
        assert!(rt; sink.as_bytes() == held.as_bytes(), "at {failing}");
    }
}

fn writes_until_full(rt: &impl Abort, mut sink: MemorySink) {
    assert!(rt; write_whole(&mut sink, b""));
    assert!(rt; write_whole(&mut sink, TEXT));
    assert!(rt; !write_whole(&mut sink, b"!"), "it is full");
    assert!(rt; sink.faults() == 1);
    assert!(rt; sink.into_bytes().as_slice() == TEXT.as_slice());
}

// Fails at its second call, and takes nothing at its third.
#[derive(Drop)]
struct Broken {
    calls: u64,
}

impl Broken {
    fn next(&mut self, count: usize) -> io::Result<usize>
        ensures { IfOk result (λ n. n ≤ count) }
    {
        self.calls = self.calls.saturating_add(1);
        match self.calls {
            2 => Err(io::Error::from(io::ErrorKind::BrokenPipe)),
            3 => Ok(0),
            _ => Ok(count.min(3)),
        }
    }
}

impl io::Read for Broken {
    fn read(&mut self, buf: &mut [u8]) -> io::Result<usize> {
        self.next(buf.len())
    }
}

impl io::Write for Broken {
    fn write(&mut self, buf: &[u8]) -> io::Result<usize> {
        self.next(buf.len())
    }

    fn flush(&mut self) -> io::Result<()> {
        Ok(())
    }
}

#[test]
fn streams_pass_bytes_on_and_count_faults(rt: HostRuntime) {
    let alloc = rt.alloc();
    let mut source = StreamSource::new(TEXT.as_slice());
    assert!(rt; gives(alloc, &mut source, 10, TEXT));
    assert!(rt; source.faults() == 0);
    let mut source = StreamSource::new(Broken { calls: 0 });
    assert!(rt; fault(alloc, &mut source, 10) == "failed");
    assert!(rt; source.faults() == 1);
    assert!(rt; gives(alloc, &mut source, 10, b""));
    streams_take_bytes(&rt, alloc);
}

fn streams_take_bytes(rt: &impl Abort, alloc: Global) {
    let mut sink = StreamSink::new(Vec::new(alloc));
    assert!(rt; write_whole(&mut sink, TEXT));
    assert!(rt; sink.faults() == 0);
    let mut sink = StreamSink::new(Broken { calls: 0 });
    assert!(rt; !write_whole(&mut sink, TEXT));
    assert!(rt; !write_whole(&mut sink, TEXT));
    assert!(rt; sink.faults() == 2);
}

#[test]
fn clocks_show_a_day(rt: HostRuntime) {
    let day = Day::from_number(43_830).unwrap();
    assert!(rt; FixedClock::new(day).today() == day);
    // 2026-01-01 has the number 53,326: 146 years and 36 leap days lie before it.
    assert!(rt; SystemClock::new(&rt).today().number() > 53_326);
}
