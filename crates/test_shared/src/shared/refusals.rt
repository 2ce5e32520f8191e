//! Requests of the constructor that are refused, and calls that make none.
use crate::asserts::is_in;
use crate::crew::{Deed, find_each};
use crate::opening::{Opened, end, open, open_surely, part};
use queue_steps::sizes::MAX_CAPACITY;
use std::alloc::Global;
use std::process::Abort;
use std::sync::Wait;
use test_support::allocators::{Heap, Refusal};

/// What the constructor answers.
type Made<'a, T> = Opened<T, &'a Heap>;

/// What is seen of a constructor: whether there is a queue, how many requests there were, and how many blocks stay while there is a queue, and once it is dropped.
type Seen = (bool, u64, [u64; 2]);

/// What is seen of the constructor of a queue of this capacity, or without one, in memory of which requests are refused.
fn seen_of<T: Drop>(rt: &impl Abort, alloc: Global, refusal: Refusal, cap: Option<usize>) -> Seen {
    let heap = Heap::new(alloc, refusal);
    let queue: Made<T> = open(rt, &heap, cap);
    let made = queue.is_ok();
    let live = heap.live();
    drop(queue);
    (made, heap.requests(), [live, heap.live()])
}

/// Asserts that memory is wanting for a queue of this capacity after so many requests, and that nothing stays allocated.
fn is_wanting<T: Drop>(
    rt: &impl Abort,
    alloc: Global,
    refusal: Refusal,
    cap: usize,
    requests: u64,
) {
    let seen = seen_of::<T>(rt, alloc, refusal, Some(cap));
    is_in(rt, cap, seen, (false, requests, [0, 0]));
}

/// Refuses each request for a queue of this capacity, or without one, in turn: want of memory, no request after it, and nothing stays allocated. With ample memory so many blocks stay.
fn each_refused(rt: &impl Abort, alloc: Global, cap: Option<usize>, blocks: u64) {
    let ample = seen_of::<u64>(rt, alloc, Refusal::Never, cap);
    let requests = ample.1;
    is_in(rt, cap, ample, (true, requests.max(blocks), [blocks, 0]));
    for number in 1..=requests {
        let seen = seen_of::<u64>(rt, alloc, Refusal::Nth(number), cap);
        is_in(rt, cap, seen, (false, number, [0, 0]));
    }
}

/// A queue with a capacity has a block of words and one of slots, one without has a block of both its ends.
#[test]
fn each_request_refused(rt: HostRuntime) {
    for (cap, blocks) in [(Some(1), 2), (Some(3), 2), (None, 1)] {
        each_refused(&rt, rt.alloc(), cap, blocks);
    }
}

/// A capacity above the greatest, and one whose slots are more bytes than one allocation may have, are refused without a request.
#[test]
fn too_many_slots_refused(rt: HostRuntime) {
    is_wanting::<u64>(&rt, rt.alloc(), Refusal::Never, MAX_CAPACITY, 0);
    is_wanting::<u64>(&rt, rt.alloc(), Refusal::Never, MAX_CAPACITY + 1, 0);
}

/// A queue of bytes has no slots of more bytes than one allocation may have, so that each capacity up to the greatest is asked of the allocator.
#[test]
fn the_greatest_capacity_is_asked_for(rt: HostRuntime) {
    is_wanting::<u8>(&rt, rt.alloc(), Refusal::Always, 1 << 40, 1);
    is_wanting::<u8>(&rt, rt.alloc(), Refusal::Always, 1 << 50, 1);
    is_wanting::<u8>(&rt, rt.alloc(), Refusal::Always, MAX_CAPACITY, 1);
    is_wanting::<u8>(&rt, rt.alloc(), Refusal::Always, MAX_CAPACITY + 1, 0);
}

/// Calls, a split and a join. Asserts that they ask for no memory, and neither does the end of the sharing, after which so many blocks stay until the queue is dropped.
fn asks_no_more<R: Wait + Abort>(rt: &R, alloc: Global, cap: usize, blocks: u64) {
    let heap = Heap::new(alloc, Refusal::Never);
    let (queue, party) = open_surely(rt, &heap, Some(cap));
    let requests = heap.requests();
    let (first, second) = part(rt, &queue, party);
    let mut party = queue.join(first, second);
    let popped = find_each(rt, &queue, &mut party, Deed::PushAndPop, 0..4);
    let filled = find_each(rt, &queue, &mut party, Deed::PushOnce, 0..cap as u64);
    let forced = find_each(rt, &queue, &mut party, Deed::ForceAndPop, 0..4);
    queue.close(&mut party);
    let alone = end(rt, queue, party);
    let left = (alone.len(), heap.live());
    drop(alone);
    let seen = ([popped, filled, forced], left, heap.live());
    is_in(rt, cap, seen, ([true; 3], (cap, blocks), 0));
    is_in(rt, cap, heap.requests(), requests);
}

/// The calls ask for no memory, and neither does the end of the sharing, which gives all back: a ring lies in the same memory then.
#[test]
fn no_request_after_the_constructor(rt: HostRuntime) {
    for (cap, blocks) in [(1, 0), (2, 2)] {
        asks_no_more(&rt, rt.alloc(), cap, blocks);
    }
}
