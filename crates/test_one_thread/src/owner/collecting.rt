//! Queues of what an iterator gives.
use crate::asserts::{is, is_in};
use crate::owner::made::Counting;
use std::alloc::AllocError;
use test_support::allocators::{Heap, Refusal};

/// Far more items than a block has.
const MANY: u64 = 70_000;

/// More items than two blocks hold, and how many blocks they fill.
const SOME: u64 = 150;

const BLOCKS: u64 = 3;

/// Each item is accepted, they come in their order, the queue is open, and nothing is left allocated.
#[test]
fn items_are_collected_in_their_order(rt: HostRuntime) {
    let heap = Heap::new(rt.alloc(), Refusal::Never);
    let made: Result<Counting<'_>, AllocError> = (0..MANY).collect(&heap);
    let mut next: u64 = 0;
    let mut takes_more = false;
    if let Ok(mut queue) = made {
        takes_more = queue.push(MANY).is_ok();
        for item in queue {
            if item == next {
                next = next.wrapping_add(1);
            }
        }
    }
    is(&rt, (takes_more, next, heap.live()), (true, MANY + 1, 0));
}

#[test]
fn each_refused_request_ends_a_collection(rt: HostRuntime) {
    for number in 1..BLOCKS + 1 {
        let heap = Heap::new(rt.alloc(), Refusal::Nth(number));
        let made: Result<Counting<'_>, AllocError> = (0..SOME).collect(&heap);
        let refused = made.is_err();
        drop(made);
        is_in(&rt, number, (refused, heap.live()), (true, 0));
    }
}
