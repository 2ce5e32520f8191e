//! Tells every outcome of a small program over one queue.
#![tactic(auto)]

use app_explore::program::program;
use std::env;
use std::process::ExitCode;

fn main(rt: HostRuntime) -> ExitCode {
    program(
        rt.alloc(),
        &rt.alloc(),
        env::args(&rt),
        &mut rt.stdin(),
        &mut rt.stdout(),
        &mut rt.stderr(),
    )
}
