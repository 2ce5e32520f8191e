//! The blocks of queues without a capacity that parties share: how many live, and requests that are refused or held.
ghost use Rattle.std.specs.Prelude.{◌≡◌, ◌<◌};
ghost use Rattle.concurrent_queue.specs.Shared.{IsPartyOf};

use crate::asserts::{is, is_in};
use crate::crew::{Assignment, Board, Deed, Role, crew, find_each, in_order};
use crate::opening::{end, open_surely};
use concurrent_queue::{ConcurrentQueue, Exclusive, Party};
use std::alloc::Global;
use std::process::Abort;
use std::sync::Wait;
use std::thread::Threads;
use test_support::allocators::{Heap, Refusal};

/// A shared queue whose requests are counted.
type Queue<'a> = ConcurrentQueue<u64, &'a Heap>;

/// How many items one thread pushes and another one pops.
const ITEMS: u64 = 100_000;

/// How many items each of four threads pushes.
const EACH: u64 = 1000;

/// Ends the sharing of a queue. Gives how many allocations lived before; and then its items, its blocks, and how many allocations live.
fn end_counted<'a>(
    rt: &impl Abort,
    heap: &Heap,
    queue: Queue<'a>,
    party: Party<u64>,
) -> (Exclusive<u64, &'a Heap>, [u64; 4])
    requires { IsPartyOf party queue }
{
    let shared = heap.live();
    let alone = end(rt, queue, party);
    let counts = [
        shared,
        alone.len() as u64,
        alone.blocks() as u64,
        heap.live(),
    ];
    (alone, counts)
}

/// Lets threads work at these assignments on a queue without a capacity, where the first request of the pushes may be held. Gives the queue, whether each thread got what it had to, and what `end_counted` gives.
fn work_counted<'a, R: Wait + Threads + Sync + Abort>(
    rt: &R,
    board: &'a Board,
    assignments: &[Assignment],
    held: bool,
) -> (Exclusive<u64, &'a Heap>, bool, [u64; 4]) {
    let (queue, party) = open_surely(rt, &board.heap, None);
    if held {
        board.heap.hold_next();
    }
    let others = assignments.len().saturating_sub(1) as u64;
    let (party, right) = crew(rt, &queue, party, board, assignments, others);
    let (alone, counts) = end_counted(rt, &board.heap, queue, party);
    (alone, right, counts)
}

static PASS: [Assignment; 2] = [
    (Role::PushAndLetGo, 0, ITEMS),
    (Role::Each(Deed::PopInOrder), 0, ITEMS),
];

/// Of all blocks that items went through one is left, beside the allocation of both ends, which the end of the sharing gives back.
#[test]
fn passed_blocks_are_given_back(rt: HostRuntime) {
    let board = Board::of(&rt, rt.alloc(), PASS.len(), 0);
    let (_, right, counts) = work_counted(&rt, &board, &PASS, false);
    is(&rt, (right, counts), (true, [2, 0, 1, 1]));
}

static ASK: [Assignment; 4] = [
    (Role::PushAndLetGo, 0, EACH),
    (Role::PushAndLetGo, EACH, 2 * EACH),
    (Role::PushAndLetGo, 2 * EACH, 3 * EACH),
    (Role::PushAndLetGo, 3 * EACH, 4 * EACH),
];

/// Of four threads the one that first asks for a block on the empty queue is kept waiting until another one's push is accepted, which asked for the same. No block is left over.
#[test]
fn two_of_four_threads_ask_for_the_first_block(rt: HostRuntime) {
    let board = Board::of(&rt, rt.alloc(), ASK.len(), 0);
    let (alone, right, counts) = work_counted(&rt, &board, &ASK, true);
    let held = board.heap.held_until_let_go();
    let seen = (right, held, counts, in_order(alone, EACH));
    is(&rt, seen, (true, true, [65, 4000, 64, 64], [EACH; 4]));
}

static MEANWHILE: [Assignment; 2] = [(Role::PushAndLetGo, 0, 1), (Role::PopWhileHeld, 0, 1)];

/// While the allocator keeps a push waiting for the first block, another thread's pop is answered.
#[test]
fn empty_while_a_push_asks_for_memory(rt: HostRuntime) {
    let board = Board::of(&rt, rt.alloc(), MEANWHILE.len(), 0);
    let (mut alone, right, _) = work_counted(&rt, &board, &MEANWHILE, true);
    let popped = alone.pop();
    let counts = [alone.blocks() as u64, board.heap.live()];
    let held = board.heap.held_until_let_go();
    is(
        &rt,
        (right, held, popped, counts),
        (true, true, Ok(0), [1, 1]),
    );
}

/// Which request is refused, and to which push; how many requests there are in the end, and how many items.
static REFUSED: [(Refusal, u64, u64, u64); 4] = [
    (Refusal::Never, 0, 4, 127),
    (Refusal::Nth(2), 1, 5, 126),
    (Refusal::Nth(3), 63, 5, 126),
    (Refusal::Nth(4), 126, 5, 126),
];

/// Refuses a request, which is one of the pushes'. Asserts that the push is refused, and how many requests, items and blocks there are.
fn one_request_refused<R: Wait + Abort>(rt: &R, alloc: Global, row: &(Refusal, u64, u64, u64)) {
    let (refusal, refused, requests, accepted) = *row;
    let heap = Heap::new(alloc, refusal);
    let (queue, mut party) = open_surely(rt, &heap, None);
    let before = heap.requests();
    let right = find_each(rt, &queue, &mut party, Deed::PushBut(refused), 1..128);
    let (_, [_, len, blocks, live]) = end_counted(rt, &heap, queue, party);
    let seen = (right, [before, len, blocks, live, heap.requests()]);
    is_in(rt, refused, seen, (true, [1, accepted, 3, 3, requests]));
}

/// The constructor's request is granted, and one of the pushes' is refused, or none. The number of blocks is told once the sharing has ended.
#[test]
fn each_request_of_a_push_refused(rt: HostRuntime) {
    for row in REFUSED.iter() {
        one_request_refused(&rt, rt.alloc(), row);
    }
}

fn are_sent<Queue: Send + Sync, Party: Send>() {}

/// A queue may be sent to threads and shared between them, and its parties may be sent.
#[test]
fn may_be_sent() {
    are_sent::<Queue, Party<u64>>();
}
