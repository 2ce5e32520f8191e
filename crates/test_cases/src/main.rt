//! Runs every stored case through its program, some with streams and requests that fail, and every stored program through the explorer, and compares what they write, byte for byte. It replays the schedule of each outcome to see that it ends with it, and of each wait to see that the one party gets its reply after the other's alone.
//!
//! It ends as a replay ends that no queue may run.
#![tactic(auto)]

mod stored;

use crate::stored::runs::status_of_refused;
use crate::stored::tell_stored;
use std::io;
use std::process::ExitCode;

fn main(rt: HostRuntime) -> io::Result<ExitCode> {
    if tell_stored(&rt)? {
        Ok(ExitCode::from(status_of_refused(&rt)?))
    } else {
        Ok(ExitCode::FAILURE)
    }
}
