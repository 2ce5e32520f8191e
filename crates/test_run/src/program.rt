//! The arguments as the system gives them.
use crate::asserts::is_in;
use app_command::program::program;
use std::env::Args;
use std::io;
use std::io::ErrorKind;
use test_support::runs::{End, words};

/// An input of one line.
const INPUT: &[u8] = b"push 1\n";

/// All that is told of arguments that ask for no mode.
const USAGE: &str =
    "usage: queue_run script KIND | replay KIND PARTIES | threads KIND PUSHERS POPPERS ITEMS | handshake | channel KIND SENDERS RECEIVERS ITEMS\n";

/// Why there are no arguments, and how the program ends; with no reason they are none, not even the program's name.
static ENDS: [(Option<ErrorKind>, u8, &str); 3] = [
    (None, 2, USAGE),
    (Some(ErrorKind::OutOfMemory), 3, "no memory\n"),
    (Some(ErrorKind::InvalidData), 2, USAGE),
];

/// The arguments, as the system gives them.
fn given(args: Vec<String>, failure: Option<ErrorKind>) -> io::Result<Args> {
    match failure {
        None => Ok(args.into_iter()),
        Some(kind) => Err(io::Error::from(kind)),
    }
}

/// The input stays unread.
#[test]
fn each_end_has_its_status(rt: HostRuntime) {
    for (failure, status, told) in ENDS.iter() {
        let mut input = INPUT;
        let mut output = Vec::new(rt.alloc());
        let mut faults = Vec::new(rt.alloc());
        let args = words(rt.alloc(), "").expect(&rt, "memory for the arguments");
        let given = given(args, *failure);
        let ended = program(
            &rt,
            &rt.alloc(),
            given,
            &mut input,
            &mut output,
            &mut faults,
        );
        let end = End {
            status: ended.status,
            output: output.as_slice(),
            faults: faults.as_slice(),
        };
        is_in(&rt, *told, (end, input), (End::fault(*status, told), INPUT));
    }
}
