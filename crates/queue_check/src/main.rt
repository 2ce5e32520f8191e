//! Tells whether a recorded history of calls on a queue is legal.
#![tactic(auto)]

use app_check::program::program;
use std::env;
use std::process::ExitCode;

fn main(rt: HostRuntime) -> ExitCode {
    program(
        rt.alloc(),
        &rt.alloc(),
        env::args(&rt),
        &mut rt.stdin(),
        &mut rt.stdout(),
        &mut rt.stderr(),
    )
}
