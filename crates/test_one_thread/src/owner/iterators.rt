//! Iterators over queues with one owner, and what is printed of both.
use crate::asserts::{is, is_in};
use crate::owner::made::{Counting, Made, filled};
use std::alloc::Global;
use std::fmt::Debug;
use std::process::Abort;
use test_support::allocators::{Heap, Refusal};

/// Takes so many items off, if there are as many. Gives how many came in their turn, this number first.
fn taken(queue: &mut Counting<'_>, first: u64, count: u64) -> u64 {
    let mut next = first;
    let mut items = queue.try_iter();
    for _ in 0..count {
        if items.next() == Some(next) {
            next = next.wrapping_add(1);
        }
    }
    next.wrapping_sub(first)
}

/// How a queue is made, how many items are pushed, and how many are asked for; and how many come, how many blocks are held then, and how many items are left.
static WALKS: [(Made, u64, u64, [u64; 3]); 12] = [
    (Made::Bounded(5), 3, 1, [1, 0, 2]),
    (Made::Bounded(5), 3, 3, [3, 0, 0]),
    (Made::Bounded(5), 3, 4, [3, 0, 0]),
    (Made::Bounded(3), 3, 2, [2, 0, 1]),
    (Made::Bounded(1), 3, 0, [0, 0, 1]),
    (Made::Bounded(1), 3, 2, [1, 0, 0]),
    (Made::Unbounded, 3, 1, [1, 1, 2]),
    (Made::Unbounded, 3, 4, [3, 1, 0]),
    (Made::Unbounded, 140, 0, [0, 3, 140]),
    (Made::Unbounded, 140, 62, [62, 3, 78]),
    (Made::Unbounded, 140, 63, [63, 2, 77]),
    (Made::Unbounded, 140, 141, [140, 1, 0]),
];

/// Takes so many items off, and then the rest. Gives how many come first, the blocks that are held then, and how many come then; and what is left, whether the queue is closed, and whether it takes one more.
fn walked(mut queue: Counting<'_>, asked: u64) -> ([u64; 3], usize, bool, bool) {
    let came = taken(&mut queue, 0, asked);
    let blocks = queue.blocks() as u64;
    let rest = taken(&mut queue, came, 150);
    let closed = queue.is_closed();
    (
        [came, blocks, rest],
        queue.len(),
        closed,
        queue.push(4) == Ok(()),
    )
}

/// What an iterator did not take stays, and the queue is as open as before. Blocks whose items it took are given back.
#[test]
fn an_iterator_takes_from_the_front(rt: HostRuntime) {
    let heap = Heap::new(rt.alloc(), Refusal::Never);
    for (made, count, asked, wanted) in WALKS.iter() {
        let seen = walked(filled(&rt, &heap, *made, 0, *count), *asked);
        is_in(&rt, (*count, *asked), seen, (*wanted, 0, false, true));
    }
}

/// Asserts what is printed of a queue, or of an iterator.
fn is_printed<T: Debug>(rt: &impl Abort, alloc: Global, value: &T, wanted: &str) {
    let text = format!(in alloc; "{value:?}").expect(rt, "memory");
    is(rt, text.as_str(), wanted);
}

/// Asserts what is printed of a queue that is made so, into which so many items are pushed, and which is closed or not, and of an iterator over it.
fn both_are_printed(
    rt: &impl Abort,
    alloc: Global,
    made: Made,
    items: u64,
    closed: bool,
    wanted: &str,
) {
    let heap = Heap::new(alloc, Refusal::Never);
    let mut queue = filled(rt, &heap, made, 0, items);
    if closed {
        queue.close();
    }
    is_printed(rt, alloc, &queue, wanted);
    let of_iterator = format!(in alloc; "Iter({wanted})").expect(rt, "memory");
    is_printed(rt, alloc, &queue.try_iter(), of_iterator.as_str());
}

#[test]
fn queues_and_iterators_are_printed(rt: HostRuntime) {
    let alloc = rt.alloc();
    let slot = "Exclusive { len: 0, capacity: Some(1), is_closed: false }";
    both_are_printed(&rt, alloc, Made::Bounded(1), 0, false, slot);
    let closed_slot = "Exclusive { len: 1, capacity: Some(1), is_closed: true }";
    both_are_printed(&rt, alloc, Made::Bounded(1), 1, true, closed_slot);
    let closed_ring = "Exclusive { len: 2, capacity: Some(3), is_closed: true }";
    both_are_printed(&rt, alloc, Made::Bounded(3), 2, true, closed_ring);
    let ring = "Exclusive { len: 237, capacity: Some(300), is_closed: false }";
    both_are_printed(&rt, alloc, Made::Bounded(300), 237, false, ring);
    let closed_chain = "Exclusive { len: 0, capacity: None, is_closed: true }";
    both_are_printed(&rt, alloc, Made::Unbounded, 0, true, closed_chain);
    let chain = "Exclusive { len: 104, capacity: None, is_closed: false }";
    both_are_printed(&rt, alloc, Made::Unbounded, 104, false, chain);
}
