//! Threads that share a queue, a party each.
ghost use Rattle.std.specs.Prelude.{◌<◌};

use crate::asserts::is_in;
use crate::crew::{Assignment, Board, Deed, Role, TURNS, crew, in_order};
use crate::opening::{end, open_surely};
use std::alloc::Global;
use std::process::Abort;
use std::sync::Wait;
use std::thread::Threads;

/// What threads do at a queue of each of some capacities.
struct CrewCase {
    caps: &'static [Option<usize>],
    assignments: &'static [Assignment],
    /// How often each value is counted.
    times: u64,
}

/// The capacities of a slot and of a small ring, and none.
const KINDS: [Option<usize>; 3] = [Some(1), Some(3), None];

const PUSH: Assignment = (Role::Each(Deed::Push), 0, TURNS);

const POP: Assignment = (Role::Pop, 0, TURNS);

const PUSH_AND_POP: Assignment = (Role::Each(Deed::PushAndPop), 0, TURNS);

const FORCE_AND_POP: Assignment = (Role::Each(Deed::ForceAndPop), 0, TURNS);

const FORCE: Assignment = (Role::Force, 0, TURNS);

const DRAIN: Assignment = (Role::Drain, 0, TURNS);

static IN_ORDER: CrewCase = CrewCase {
    caps: &KINDS,
    assignments: &[PUSH, (Role::Each(Deed::PopInOrder), 0, TURNS)],
    times: 0,
};

static WITHIN: CrewCase = CrewCase {
    caps: &[Some(1000)],
    assignments: &[
        (Role::EachWithin(Deed::Push, 1000), 0, TURNS),
        (Role::EachWithin(Deed::PopInOrder, 1000), 0, TURNS),
    ],
    times: 0,
};

static FOUR_AND_FOUR: CrewCase = CrewCase {
    caps: &KINDS,
    assignments: &[PUSH, POP, PUSH, POP, PUSH, POP, PUSH, POP],
    times: 4,
};

static LINEARIZABLE: CrewCase = CrewCase {
    caps: &[Some(1), Some(4), None],
    assignments: &[PUSH_AND_POP, FORCE_AND_POP, FORCE_AND_POP, PUSH_AND_POP],
    times: 0,
};

static ONE_RING_BUFFER: CrewCase = CrewCase {
    caps: &KINDS,
    assignments: &[FORCE, DRAIN],
    times: 1,
};

static FOUR_RING_BUFFERS: CrewCase = CrewCase {
    caps: &KINDS,
    assignments: &[FORCE, DRAIN, FORCE, DRAIN, FORCE, DRAIN, FORCE, DRAIN],
    times: 4,
};

/// The values of a thread of four that push.
const QUARTER: u64 = TURNS / 4;

const POP_BY_TURNS: Assignment = (Role::PopByTurns, 0, QUARTER);

static BY_TURNS: CrewCase = CrewCase {
    caps: &KINDS,
    assignments: &[
        (Role::PushByTurns, 0, QUARTER),
        POP_BY_TURNS,
        (Role::PushByTurns, QUARTER, 2 * QUARTER),
        POP_BY_TURNS,
        (Role::PushByTurns, 2 * QUARTER, 3 * QUARTER),
        POP_BY_TURNS,
        (Role::PushByTurns, 3 * QUARTER, TURNS),
        POP_BY_TURNS,
    ],
    times: 1,
};

/// Lets threads work at a queue of this capacity, or without one. Asserts that they ran at one time, that each got what it had to, that each value was counted so often, and that nothing is left.
fn works_at<R: Wait + Threads + Sync + Abort>(
    rt: &R,
    alloc: Global,
    case: &CrewCase,
    cap: Option<usize>,
) {
    let board = Board::of(rt, alloc, case.assignments.len(), TURNS);
    let (queue, party) = open_surely(rt, alloc, cap);
    let others = case.assignments.len().saturating_sub(1) as u64;
    let (party, right) = crew(rt, &queue, party, &board, case.assignments, others);
    let left = end(rt, queue, party);
    let seen = (right, board.each_came(case.times), left.len());
    is_in(rt, cap, seen, (true, true, 0));
}

/// The same at each of the capacities.
fn works<R: Wait + Threads + Sync + Abort>(rt: &R, alloc: Global, case: &CrewCase) {
    for cap in case.caps {
        works_at(rt, alloc, case, *cap);
    }
}

#[test]
fn in_order_from_one_thread_to_another(rt: HostRuntime) {
    works(&rt, rt.alloc(), &IN_ORDER);
}

#[test]
fn no_length_above_the_capacity(rt: HostRuntime) {
    works(&rt, rt.alloc(), &WITHIN);
}

#[test]
fn four_pushers_and_four_poppers(rt: HostRuntime) {
    works(&rt, rt.alloc(), &FOUR_AND_FOUR);
}

#[test]
fn four_and_four_threads_that_never_wait(rt: HostRuntime) {
    works(&rt, rt.alloc(), &BY_TURNS);
}

#[test]
fn linearizable(rt: HostRuntime) {
    works(&rt, rt.alloc(), &LINEARIZABLE);
}

#[test]
fn ring_buffer_of_one_thread(rt: HostRuntime) {
    works(&rt, rt.alloc(), &ONE_RING_BUFFER);
}

#[test]
fn ring_buffer_of_four_threads(rt: HostRuntime) {
    works(&rt, rt.alloc(), &FOUR_RING_BUFFERS);
}

/// How many items each of two threads pushes.
const EACH: u64 = 100;

static PUSH_BOTH: [Assignment; 2] = [
    (Role::Each(Deed::PushOnce), 0, EACH),
    (Role::Each(Deed::PushOnce), EACH, 2 * EACH),
];

/// Lets two threads push into a queue of this capacity, or without one. Gives whether each item was accepted, the length that a party is told, and how many of each thread come out in their order.
fn left_by_two<R: Wait + Threads + Sync + Abort>(
    rt: &R,
    alloc: Global,
    cap: Option<usize>,
) -> (bool, usize, [u64; 4]) {
    let board = Board::of(rt, alloc, PUSH_BOTH.len(), 0);
    let (queue, party) = open_surely(rt, alloc, cap);
    let (mut party, accepted) = crew(rt, &queue, party, &board, &PUSH_BOTH, 1);
    let len = queue.len(rt, &mut party);
    (accepted, len, in_order(end(rt, queue, party), EACH))
}

/// All that they pushed is counted, and is there in its order.
#[test]
fn two_threads_leave_what_they_pushed(rt: HostRuntime) {
    for cap in [Some(400), None] {
        let found = left_by_two(&rt, rt.alloc(), cap);
        is_in(&rt, cap, found, (true, 200, [EACH, EACH, 0, 0]));
    }
}
