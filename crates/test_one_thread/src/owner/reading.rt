//! Items that are read in their places, and items that are taken out of a queue that ends.
use crate::asserts::{is, is_in};
use crate::owner::made::{Counting, Made, filled};
use test_support::allocators::{Heap, Refusal};

/// How a queue is made, how many items go through it first, and how many are in it then.
static READ: [(Made, u64, u64); 10] = [
    (Made::Bounded(1), 0, 0),
    (Made::Bounded(1), 1, 1),
    (Made::Bounded(3), 0, 2),
    (Made::Bounded(3), 2, 3),
    (Made::Bounded(3), 4, 1),
    (Made::Unbounded, 0, 0),
    (Made::Unbounded, 0, 63),
    (Made::Unbounded, 62, 2),
    (Made::Unbounded, 63, 1),
    (Made::Unbounded, 60, 140),
];

/// How many items of a queue are 0, 1 and so on.
fn in_order(queue: &Counting<'_>) -> u64 {
    let mut next: u64 = 0;
    for item in queue {
        if *item == next {
            next = next.wrapping_add(1);
        }
    }
    next
}

/// What is read of a queue twice, and its length; the first item that an iterator shows, and the front.
fn read(queue: Counting<'_>) -> ([u64; 3], [Option<u64>; 2]) {
    let read = [in_order(&queue), in_order(&queue), queue.len() as u64];
    let first = queue.iter().next().copied();
    (read, [first, queue.front().copied()])
}

/// The items come in their order, the front is the first of them, and all stay.
#[test]
fn items_are_read_and_stay(rt: HostRuntime) {
    let heap = Heap::new(rt.alloc(), Refusal::Never);
    for (made, through, held) in READ.iter() {
        let seen = read(filled(&rt, &heap, *made, *through, *held));
        let first = if *held == 0 { None } else { Some(0) };
        is_in(&rt, (*through, *held), seen, ([*held; 3], [first; 2]));
    }
}

/// Takes so many items out of a queue that ends. Gives how many came in their turn, 0 first.
fn first_of(queue: Counting<'_>, count: u64) -> u64 {
    let mut next: u64 = 0;
    let mut items = queue.into_iter();
    for _ in 0..count {
        if items.next() == Some(next) {
            next = next.wrapping_add(1);
        }
    }
    next
}

/// A queue that ends gives its items, and drops what is not asked for.
#[test]
fn a_queue_that_ends_gives_its_items(rt: HostRuntime) {
    let heap = Heap::new(rt.alloc(), Refusal::Never);
    let queue = filled(&rt, &heap, Made::Unbounded, 0, 70);
    let held = heap.live();
    let came = first_of(queue, 65);
    is(&rt, (0 < held, came, heap.live()), (true, 65, 0));
}
