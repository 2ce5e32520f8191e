//! Programs with just as many states as may be looked at, and one more.
use crate::asserts::is_in;
use app_explore::args::parse_request;
use app_explore::command::told;
use app_explore::faults::Stop;
use std::alloc::Global;
use std::process::Abort;
use test_support::runs::words;

/// A program with waits, and how many states it has: `bench/outcomes --states` counts them.
struct Limit {
    /// The first of the arguments.
    kind: &'static str,
    input: &'static str,
    states: usize,
}

static LIMITS: [Limit; 4] = [
    Limit {
        kind: "bounded:2",
        input: "before: push 1; push 2\n0: push 3\n1: pop\n",
        states: 33,
    },
    Limit {
        kind: "bounded:2",
        input: "before: push 1; push 2\n0: push 3; pop\n1: pop; push 4\n2: len\n",
        states: 1_621,
    },
    Limit {
        kind: "unbounded",
        input: "before: push 1\n0: push 2; pop\n1: pop; push 3\n",
        states: 264,
    },
    Limit {
        kind: "unbounded refuse",
        input: "0: push 1\n1: pop\n",
        states: 59,
    },
];

/// All that may be told of each.
const TELLINGS: [&str; 5] = ["", "schedule 1", "lanes 1", "waits", "waits 1"];

/// Whether a program comes to its text where so many states may be looked at. If not, it has too many.
fn fits(rt: &impl Abort, alloc: Global, line: &str, input: &str, most_states: usize) -> bool {
    let args = words(alloc, line).expect(rt, "memory");
    let Ok(request) = parse_request(&args) else {
        rt.panic("a request");
    };
    match told(&alloc, request, input.as_bytes(), most_states) {
        Ok(_) => true,
        Err(Stop::TooManyStates) => false,
        Err(_) => panic!(rt; "another end"),
    }
}

/// Whether a program fits where it has just as many states as may be looked at, one more, and far more.
fn is_limited(rt: &impl Abort, alloc: Global, line: &str, limit: &Limit) {
    for (most, wanted) in [
        (limit.states, true),
        (limit.states.saturating_sub(1), false),
        (1, false),
        (0, false),
    ] {
        let found = fits(rt, alloc, line, limit.input, most);
        is_in(rt, (line, limit.input, most), found, wanted);
    }
}

#[test]
fn as_many_states_as_may_be_and_one_more(rt: HostRuntime) {
    for limit in &LIMITS {
        for telling in &TELLINGS {
            let line = format!(in rt.alloc(); "{} {telling}", limit.kind).expect(&rt, "memory");
            is_limited(&rt, rt.alloc(), line.as_str(), limit);
        }
    }
}
