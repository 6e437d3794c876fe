//! The program that answers `assess` alone, with the exit statuses that `office` has for it.
#![tactic(auto)]

use assess_command::{Assessed, assess};
use std::io::{ErrorKind, Read, Write};
use std::process::ExitCode;

/// The most bytes of an assess object.
const INPUT_LIMIT: usize = 16_384;

fn main(rt: HostRuntime) -> ExitCode {
    let mut input = Vec::new(rt.alloc());
    let read = rt
        .stdin()
        .take(INPUT_LIMIT as u64 + 1)
        .read_to_end(&mut input);
    ExitCode::from(match read {
        Ok(_) if input.len() > INPUT_LIMIT => 9,
        Ok(_) => match assess(rt.alloc(), &input) {
            Ok(Assessed::Paid(text)) => written(rt.stdout(), text.as_bytes(), 0),
            Ok(Assessed::Refused(text)) => written(rt.stdout(), text.as_bytes(), 8),
            Err(_) => 7,
        },
        Err(error) if error.kind() == ErrorKind::OutOfMemory => 7,
        Err(_) => 3,
    })
}

/// Writes the answer, and gives the status that goes with it, or 4 if writing failed.
fn written<W: Write + Drop>(mut writer: W, answer: &[u8], status: u8) -> u8 {
    match writer.write_all(answer) {
        Ok(()) => status,
        Err(_) => 4,
    }
}
