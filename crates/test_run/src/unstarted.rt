//! Threads that cannot be started: those that were started end, and the run ends as one without memory.
use crate::asserts::is_in;
use app_text::args::{Mode, parse_mode};
use app_text::faults::Fault;
use app_threads::channel::channel;
use app_threads::handshake::handshake;
use app_threads::limit::Limit;
use app_threads::sharing::Ran;
use app_threads::threads::threads;
use std::process::Abort;
use std::sync::Wait;
use std::thread::Threads;
use test_support::runs::words;

/// Runs the mode that a line asks for, where no more threads can be started than the limit says.
fn run<R: Abort + Threads + Wait + Sync + AllocGlobal>(
    rt: &R,
    line: &str,
    limit: Limit,
    output: &mut Vec<u8>,
) -> Ran {
    let alloc = rt.alloc();
    let args = words(alloc, line).expect(rt, "memory for the arguments");
    match parse_mode(&args) {
        Some(Mode::Threads(load)) => threads(rt, alloc, load, limit, output),
        Some(Mode::Handshake) => handshake(rt, alloc, limit, output),
        Some(Mode::Channel(load)) => channel(rt, alloc, load, limit, output),
        _ => panic!(rt; "a mode without threads"),
    }
}

/// Asserts that the run of a line comes to its end where so many threads can be started, and writes this, but without one of them wants memory, and writes nothing.
fn takes<R: Abort + Threads + Wait + Sync + AllocGlobal>(
    rt: &R,
    line: &str,
    threads: u64,
    wanted: &str,
) {
    for started in 0..=threads {
        let mut output = Vec::new(rt.alloc());
        let ran = run(rt, line, Limit(started), &mut output);
        let wants_memory = matches!(ran.end, Err(Fault::NoMemory));
        let seen = (ran.end.is_ok(), wants_memory, output.as_slice());
        let ends = started == threads;
        let text = if ends { wanted } else { "" };
        is_in(rt, (line, started), seen, (ends, !ends, text.as_bytes()));
    }
}

/// How many threads each line starts, and what is written where they can be.
static LINES: [(&str, u64, &str); 7] = [
    ("handshake", 2, "both\n"),
    (
        "threads single 2 2 20",
        4,
        "20 values, each counted 2 times\n",
    ),
    (
        "threads bounded:3 3 2 20",
        5,
        "20 values, each counted 3 times\n",
    ),
    (
        "threads unbounded 2 4 100",
        6,
        "100 values, each counted 2 times\n",
    ),
    (
        "channel single 2 2 20",
        4,
        "20 values, each counted 2 times\nleft 0\n",
    ),
    (
        "channel bounded:3 3 2 20",
        5,
        "20 values, each counted 3 times\nleft 0\n",
    ),
    (
        "channel unbounded 2 4 100",
        6,
        "100 values, each counted 2 times\nleft 0\n",
    ),
];

/// Each start is refused in turn, with all behind it. A run whose started threads were not to end would not end either.
#[test]
fn a_thread_that_cannot_be_started_is_want_of_memory(rt: HostRuntime) {
    for (line, threads, wanted) in LINES.iter() {
        takes(&rt, line, *threads, wanted);
    }
}
