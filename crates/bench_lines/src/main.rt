//! What `bench/batch` compares with: reads each line of its input as serde_json's tree, and writes the tree as a line again.
#![tactic(auto)]

use line_input::{LineReader, Next};
use office_io::{StreamSink, StreamSource, write_whole};
use serde_json::Value;
use std::alloc::Global;
use std::process::ExitCode;

/// The most bytes of a line, and the most lines, as of a batch.
const LINE_LIMIT: usize = 16_384;

const MOST_LINES: u32 = 200_000;

fn main(rt: HostRuntime) -> ExitCode {
    let mut source = StreamSource::new(rt.stdin());
    let mut sink = StreamSink::new(rt.stdout());
    let Ok(mut reader) = LineReader::new(rt.alloc()) else {
        return ExitCode::FAILURE;
    };
    for _ in 0..MOST_LINES {
        match reader.next(&mut source, LINE_LIMIT) {
            Next::Line | Next::Last => {}
            Next::End => return ExitCode::SUCCESS,
            _ => return ExitCode::FAILURE,
        }
        match line_again(rt.alloc(), reader.line()) {
            Some(line) if write_whole(&mut sink, line.as_bytes()) => {}
            _ => return ExitCode::FAILURE,
        }
    }
    ExitCode::FAILURE
}

/// The line as serde_json writes what it reads, with a line end.
fn line_again(alloc: Global, line: &[u8]) -> Option<String> {
    let tree = Value::from_slice(alloc, line).ok()?;
    let mut text = tree.to_string(alloc).ok()?;
    text.push('\n').ok()?;
    Some(text)
}
