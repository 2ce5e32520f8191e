//! Programs with many parties, calls, slots or items: what is found of each is shown, and is all.
ghost use Rattle.machine_replay.specs.Replays.{CanReplay};

use crate::asserts::is_in;
use app_explore::limits::MOST_STATES;
use app_explore::listed::{Listed, are_in_order};
use app_explore::listing::list_outcomes;
use machine_explore::problem::Problem;
use machine_explore::program::{Calls, Program};
use machine_explore::schedule::Move;
use machine_explore::sequence::Sequence;
use machine_explore::trace::follow;
use queue_steps::model::Call;
use queue_steps::steps::Kind;
use std::alloc::Global;
use std::process::Abort;

/// So many times the same call.
fn calls(rt: &impl Abort, alloc: Global, call: Call<u64>, count: usize) -> Calls<Global> {
    let mut calls = Vec::new(alloc);
    for _ in 0..count {
        calls.push(call).expect(rt, "memory");
    }
    Sequence::of(calls)
}

/// A program that no text has room for: 7 is pushed so many times before, and of the parties the last alone has calls.
struct Size {
    kind: Kind,
    pushes: usize,
    parties: usize,
    call: Call<u64>,
    calls: usize,
    /// The last line of its list.
    last: &'static str,
}

static SIZES: [Size; 5] = [
    Size {
        kind: Kind::Bounded(2),
        pushes: 0,
        parties: 300,
        call: Call::Push(1),
        calls: 1,
        last: "all 1 outcome, 1 schedule, most steps alone 4, 0 with order none\n",
    },
    Size {
        kind: Kind::Single,
        pushes: 0,
        parties: 1,
        call: Call::IsEmpty,
        calls: 1_000,
        last: "all 1 outcome, 1 schedule, most steps alone 1, 0 with order none\n",
    },
    Size {
        kind: Kind::Bounded(1_000),
        pushes: 1_000,
        parties: 2,
        call: Call::Pop,
        calls: 2,
        last: "all 1 outcome, 1 schedule, most steps alone 4, 0 with order none\n",
    },
    Size {
        kind: Kind::Bounded(5_000),
        pushes: 0,
        parties: 2,
        call: Call::ForcePush(1),
        calls: 2,
        last: "all 1 outcome, 1 schedule, most steps alone 4, 0 with order none\n",
    },
    // 32 blocks.
    Size {
        kind: Kind::Unbounded,
        pushes: 2_000,
        parties: 2,
        call: Call::Pop,
        calls: 2,
        last: "all 1 outcome, 1 schedule, most steps alone 6, 0 with order none\n",
    },
];

/// The program of this size.
fn program(rt: &impl Abort, alloc: Global, size: &Size) -> Program<Global> {
    let mut parties = Vec::new(alloc);
    for number in 1..=size.parties {
        let count = if number == size.parties {
            size.calls
        } else {
            0
        };
        let made = calls(rt, alloc, size.call, count);
        parties.push(made).expect(rt, "memory");
    }
    Program {
        before: calls(rt, alloc, Call::Push(7), size.pushes),
        parties,
    }
}

/// Whether the list of the program's outcomes ends with this line.
fn ends_with(alloc: Global, kind: Kind, program: Program<Global>, last: &str) -> bool
    requires { CanReplay kind }
{
    let problem = Problem {
        kind,
        refuses: false,
        program,
        most_states: MOST_STATES,
    };
    match list_outcomes(alloc, &problem) {
        Ok(text) => text.ends_with(last),
        Err(_) => false,
    }
}

#[test]
fn large_programs_are_listed(rt: HostRuntime) {
    for size in &SIZES {
        let program = program(&rt, rt.alloc(), size);
        let found = ends_with(rt.alloc(), size.kind, program, size.last);
        is_in(&rt, (size.parties, size.kind), found, true);
    }
}

/// How many parties look, each once.
const LOOKERS: usize = 300;

/// Each of them begins its call before any goes on.
fn looks(rt: &impl Abort, alloc: Global) -> (Program<Global>, Vec<Move>) {
    let mut parties = Vec::new(alloc);
    let mut moves = Vec::new(alloc);
    for round in 0..4 {
        for party in 0..LOOKERS {
            let granted = true;
            moves.push(Move { party, granted }).expect(rt, "memory");
            if round == 0 {
                let made = calls(rt, alloc, Call::Len, 1);
                parties.push(made).expect(rt, "memory");
            }
        }
    }
    let before = calls(rt, alloc, Call::Push(7), 2);
    (Program { before, parties }, moves)
}

/// How many moves of theirs are seen.
fn looks_seen(rt: &impl Abort, alloc: Global) -> usize {
    let (program, moves) = looks(rt, alloc);
    let seen = follow(alloc, Kind::Bounded(2), false, &program, &moves).expect(rt, "memory");
    match seen {
        Some(trace) => trace.entries().len(),
        None => 0,
    }
}

#[test]
fn a_schedule_of_hundreds_of_parties_is_followed(rt: HostRuntime) {
    is_in(&rt, LOOKERS, looks_seen(&rt, rt.alloc()), 1_200);
}

/// So many texts in order, and then this one.
fn texts(rt: &impl Abort, alloc: Global, count: usize, last: &str) -> Vec<Listed<(), Global>> {
    let mut texts = Vec::new(alloc);
    for number in 0..count {
        let text = format!(in alloc; "{number:05}").expect(rt, "memory");
        texts.push(Listed { text, item: () }).expect(rt, "memory");
    }
    let text = String::from_str(alloc, last).expect(rt, "memory");
    texts.push(Listed { text, item: () }).expect(rt, "memory");
    texts
}

#[test]
fn thousands_of_texts_are_in_order(rt: HostRuntime) {
    for (last, wanted) in [
        ("05000", true),
        ("04999", false),
        ("04998", false),
        ("", false),
    ] {
        let texts = texts(&rt, rt.alloc(), 5_000, last);
        is_in(&rt, last, are_in_order(&texts), wanted);
    }
}
