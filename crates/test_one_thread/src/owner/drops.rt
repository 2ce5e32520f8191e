//! Items that count their drops: each that a queue is given is dropped once.
use crate::asserts::is_in;
use crate::owner::made::Made;
use exclusive_queue::Exclusive;
use std::alloc::Global;
use std::process::Abort;
use test_support::allocators::{Heap, Refusal};
use test_support::items::{Counted, Items};

/// Pushes so many items, by force or not. Drops what comes back.
fn push_all<'a>(
    queue: &mut Exclusive<Counted<'a>, &Heap>,
    items: &'a Items,
    pushes: u64,
    forced: bool,
) {
    for _ in 0..pushes {
        if forced {
            let _ = queue.force_push(Counted::of(items));
        } else {
            let _ = queue.push(Counted::of(items));
        }
    }
}

/// Pushes so many items into a queue that is made so, and pops one. Asserts how many are dropped after the pushes, after the pop, and in the end, and that nothing stays allocated.
fn drops(rt: &impl Abort, alloc: Global, made: Made, pushes: u64, forced: bool, wanted: [u64; 3]) {
    let heap = Heap::new(alloc, Refusal::Never);
    let items = Items::none();
    let mut queue = made.queue(rt, &heap).expect(rt, "memory");
    push_all(&mut queue, &items, pushes, forced);
    let pushed = items.dropped();
    let _ = queue.pop();
    let popped = items.dropped();
    drop(queue);
    let seen = ([pushed, popped, items.dropped()], heap.live());
    is_in(rt, (made, pushes), seen, (wanted, 0));
}

/// What is refused or displaced is handed back, and what is left is dropped with the queue: on a slot, on a ring, and on chains about the ends of their blocks.
#[test]
fn what_is_left_is_dropped_once(rt: HostRuntime) {
    let alloc = rt.alloc();
    drops(&rt, alloc, Made::Bounded(1), 2, false, [1, 2, 2]);
    drops(&rt, alloc, Made::Bounded(3), 5, true, [2, 3, 5]);
    for pushes in [0, 1, 62, 63, 64, 126, 127u64] {
        let wanted = [0, pushes.min(1), pushes];
        drops(&rt, alloc, Made::Unbounded, pushes, false, wanted);
    }
}
