//! The arguments as the system gives them.
use crate::asserts::is_in;
use app_explore::program::program;
use std::env::Args;
use std::io;
use std::io::ErrorKind;
use std::process::ExitCode;
use test_support::runs::words;

/// An input of two parties.
const INPUT: &[u8] = b"0: push 1\n1: pop\n";

/// All that is told of no arguments.
const USAGE: &str =
    "usage: queue_explore KIND [refuse] [schedule N | lanes N | waits [N]]\nreads: [before: CALLS] 0: CALLS 1: CALLS .., a line each; CALLS is CALL; CALL ..; CALL is push N, force N, pop, close, is_closed, is_empty, is_full, len or capacity\nwords: too few or too many\n";

/// Why there are no arguments, and how the program ends; with no reason they are none, not even the program's name.
static ENDS: [(Option<ErrorKind>, u8, &str); 3] = [
    (None, 2, USAGE),
    (Some(ErrorKind::OutOfMemory), 3, "no memory\n"),
    (Some(ErrorKind::InvalidData), 2, USAGE),
];

/// The arguments, as the system gives them.
fn given(args: Vec<String>, failure: Option<ErrorKind>) -> io::Result<Args> {
    match failure {
        None => Ok(args.into_iter()),
        Some(kind) => Err(io::Error::from(kind)),
    }
}

/// The input stays unread, and nothing is printed.
#[test]
fn each_end_has_its_status(rt: HostRuntime) {
    for (failure, status, told) in ENDS.iter() {
        let mut input = INPUT;
        let mut output = Vec::new(rt.alloc());
        let mut faults = Vec::new(rt.alloc());
        let args = words(rt.alloc(), "").expect(&rt, "memory for the arguments");
        let given = given(args, *failure);
        let alloc = rt.alloc();
        let ended = program(alloc, &alloc, given, &mut input, &mut output, &mut faults);
        let seen = (ended, output.len(), faults.as_slice(), input);
        let wanted = (ExitCode::from(*status), 0, told.as_bytes(), INPUT);
        is_in(&rt, *told, seen, wanted);
    }
}
