//! Constructors whose requests are refused, and those that ask for nothing.
use crate::asserts::is_in;
use crate::owner::made::Made;
use queue_steps::sizes::{LIMIT, MAX_CAPACITY};
use std::alloc::Global;
use std::process::Abort;
use test_support::allocators::{Heap, Refusal};

/// Asserts that no queue is made so where these requests are refused, after so many, and that nothing stays allocated.
fn is_refused<T: Drop>(
    rt: &impl Abort,
    alloc: Global,
    made: Made,
    refusal: Refusal,
    requests: u64,
) {
    let heap = Heap::new(alloc, refusal);
    let refused = made.queue::<T>(rt, &heap).is_err();
    let seen = (refused, heap.requests(), heap.live());
    is_in(rt, made, seen, (true, requests, 0));
}

/// Asserts the same of an empty ring, and of one that stands as after some items.
fn both_are_refused<T: Drop>(
    rt: &impl Abort,
    alloc: Global,
    cap: usize,
    refusal: Refusal,
    requests: u64,
) {
    is_refused::<T>(rt, alloc, Made::Bounded(cap), refusal, requests);
    is_refused::<T>(rt, alloc, Made::BoundedAfter(cap, 7), refusal, requests);
}

/// A capacity above the greatest is refused without a request, and one whose slots are more bytes than one allocation may have. Of rings for bytes the allocator is asked for each up to the greatest.
#[test]
fn refused_capacities(rt: HostRuntime) {
    let alloc = rt.alloc();
    for cap in [MAX_CAPACITY, MAX_CAPACITY + 1, usize::MAX] {
        both_are_refused::<u64>(&rt, alloc, cap, Refusal::Never, 0);
    }
    both_are_refused::<u8>(&rt, alloc, MAX_CAPACITY + 1, Refusal::Never, 0);
    for cap in [2, 3, 1 << 40, 1usize << 58] {
        both_are_refused::<u64>(&rt, alloc, cap, Refusal::Always, 1);
    }
    for cap in [1 << 40, 1 << 50, MAX_CAPACITY] {
        both_are_refused::<u8>(&rt, alloc, cap, Refusal::Always, 1);
    }
}

/// A ring asks for its first slots and its first words, and for the two blocks that it keeps, and no request comes after one that is refused. A chain that is to stand as after some items asks for one block.
#[test]
fn each_request_of_a_constructor_refused(rt: HostRuntime) {
    for after in [0, LIMIT] {
        for number in 1..5u64 {
            let made = Made::BoundedAfter(3, after);
            is_refused::<u64>(&rt, rt.alloc(), made, Refusal::Nth(number), number);
        }
    }
    for after in [1, 62, 63, 64, LIMIT] {
        let made = Made::UnboundedAfter(after);
        is_refused::<u64>(&rt, rt.alloc(), made, Refusal::Always, 1);
    }
}
