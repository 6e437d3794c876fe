//! What the benchmarks compare with: reads its input as serde_json's tree, drops the tree, and writes the input again.
#![tactic(auto)]

use office_io::{Input, StreamSink, StreamSource, read_up_to, write_whole};
use serde_json::Value;
use std::process::ExitCode;

fn main(rt: HostRuntime) -> ExitCode {
    let mut source = StreamSource::new(rt.stdin());
    let mut sink = StreamSink::new(rt.stdout());
    match read_up_to(rt.alloc(), &mut source, 16_384) {
        Input::Whole(bytes) => {
            let tree = Value::from_slice(rt.alloc(), &bytes);
            if tree.is_ok() && write_whole(&mut sink, &bytes) {
                ExitCode::SUCCESS
            } else {
                ExitCode::FAILURE
            }
        }
        _ => ExitCode::FAILURE,
    }
}
