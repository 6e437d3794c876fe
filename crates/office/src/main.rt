//! The office program.
#![tactic(auto)]

use std::process::ExitCode;

fn main(rt: HostRuntime) -> ExitCode {
    ExitCode::from(office_shell::run(&rt, &rt).number())
}
