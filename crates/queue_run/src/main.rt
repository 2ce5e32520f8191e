//! Runs queues from the command line.
#![tactic(auto)]

use app_command::program::program;
use std::env;
use std::process::ExitCode;

fn main(rt: HostRuntime) -> ExitCode {
    let ended = program(
        &rt,
        &rt.alloc(),
        env::args(&rt),
        &mut rt.stdin(),
        &mut rt.stdout(),
        &mut rt.stderr(),
    );
    ExitCode::from(ended.status)
}
