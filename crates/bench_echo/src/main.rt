//! What the benchmarks compare with: reads its input and writes it again.
#![tactic(auto)]

use office_io::{Input, StreamSink, StreamSource, read_up_to, write_whole};
use std::process::ExitCode;

fn main(rt: HostRuntime) -> ExitCode {
    let mut source = StreamSource::new(rt.stdin());
    let mut sink = StreamSink::new(rt.stdout());
    match read_up_to(rt.alloc(), &mut source, 16_384) {
        Input::Whole(bytes) if write_whole(&mut sink, &bytes) => ExitCode::SUCCESS,
        _ => ExitCode::FAILURE,
    }
}
