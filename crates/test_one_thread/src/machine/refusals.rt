//! Requests for room, and for blocks, that are refused.
ghost use Rattle.machine_replay.specs.Replays.{CanReplay};

use crate::asserts::is_in;
use crate::machine::events::add;
use machine_replay::replay;
use machine_replay::types::Event;
use queue_steps::model::Call;
use queue_steps::sizes::{MAX_CAPACITY, STEPS_ALONE};
use queue_steps::steps::Kind;
use std::alloc::Global;
use std::process::Abort;
use test_support::allocators::{Heap, Refusal};

/// How many items a run of these events by two parties leaves, where there is memory for it.
fn left_of(heap: &Heap, kind: Kind, events: &[Event<u64>]) -> Option<usize>
    requires { CanReplay kind }
{
    let Ok(events) = events.to_vec(heap) else {
        return None;
    };
    match replay(heap, kind, 2, events) {
        Ok(told) => Some(told.left.len()),
        Err(_) => None,
    }
}

/// Asserts how many items are left where the request of this number is refused, if there is memory for the run then, and how many requests there are. Nothing stays allocated.
fn is_refused(
    rt: &impl Abort,
    alloc: Global,
    kind: Kind,
    events: &[Event<u64>],
    number: u64,
    left: Option<usize>,
    requests: u64,
)
    requires { CanReplay kind }
{
    let heap = Heap::new(alloc, Refusal::Nth(number));
    let found = left_of(&heap, kind, events);
    let seen = (found, heap.requests(), heap.live());
    is_in(rt, (kind, number), seen, (left, requests, 0));
}

/// Asserts that there are so many requests for room, that each of them refused is want of memory, and that no request comes after it. Where none is refused, so many items are left.
fn each_is_refused(
    rt: &impl Abort,
    alloc: Global,
    kind: Kind,
    events: &[Event<u64>],
    requests: u64,
    left: usize,
)
    requires { CanReplay kind }
{
    for number in 1..requests.wrapping_add(1) {
        is_refused(rt, alloc, kind, events, number, None, number);
    }
    is_refused(rt, alloc, kind, events, 0, Some(left), requests);
}

/// One slot has no stamps, and the step is the append there.
#[test]
fn each_request_for_room_refused(rt: HostRuntime) {
    let begun = [
        Event::Begin(0, Call::Push(7)),
        Event::Step(0, true),
        Event::Begin(1, Call::Pop),
        Event::Step(1, true),
    ];
    each_is_refused(&rt, rt.alloc(), Kind::Single, &begun, 8, 1);
    each_is_refused(&rt, rt.alloc(), Kind::Bounded(2), &begun, 9, 0);
    each_is_refused(&rt, rt.alloc(), Kind::Unbounded, &begun, 7, 0);
}

/// Each of two requests for a block refused is want of memory to its push alone: the next push asks again.
#[test]
fn each_block_refused(rt: HostRuntime) {
    let mut pushes = Vec::new(rt.alloc());
    for item in 0..80u64 {
        add(&rt, &mut pushes, 0, Call::Push(item), STEPS_ALONE);
    }
    for number in [8, 9u64] {
        is_refused(
            &rt,
            rt.alloc(),
            Kind::Unbounded,
            &pushes,
            number,
            Some(79),
            10,
        );
    }
    is_refused(&rt, rt.alloc(), Kind::Unbounded, &pushes, 10, Some(80), 9);
}

/// A capacity that no queue may have is want of memory without a request. Any other is asked of the allocator.
#[test]
fn the_greatest_capacity_is_asked_for(rt: HostRuntime) {
    let alloc = rt.alloc();
    is_refused(&rt, alloc, Kind::Bounded(MAX_CAPACITY + 1), &[], 1, None, 0);
    is_refused(&rt, alloc, Kind::Bounded(usize::MAX), &[], 1, None, 0);
    is_refused(&rt, alloc, Kind::Bounded(1 << 40), &[], 1, None, 1);
    is_refused(&rt, alloc, Kind::Bounded(1 << 50), &[], 1, None, 1);
    is_refused(&rt, alloc, Kind::Bounded(MAX_CAPACITY), &[], 1, None, 1);
}
