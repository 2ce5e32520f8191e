//! Iterators over shared queues, what is printed of both, and lengths.
ghost use Rattle.concurrent_queue.specs.Shared.{IsPartyOf};

use crate::asserts::{is, is_in};
use crate::crew::{Deed, find_each};
use crate::opening::{Queue, open_surely, part};
use concurrent_queue::Party;
use std::alloc::Global;
use std::process::Abort;
use std::sync::Wait;

/// Asks an iterator for four items.
fn four<R: Wait>(rt: &R, queue: &Queue, party: &mut Party<u64>) -> [Option<u64>; 4]
    requires { IsPartyOf party.old queue.now }
    ensures { IsPartyOf party.new queue.now }
{
    let mut items = queue.try_iter(rt, party);
    [items.next(), items.next(), items.next(), items.next()]
}

/// A capacity, and what an iterator gives that is asked four times once 1, 2, 3 were pushed.
static WALKS: [(Option<usize>, &[Option<u64>]); 4] = [
    (Some(5), &[Some(1), Some(2), Some(3), None]),
    (Some(2), &[Some(1), Some(2), None, None]),
    (Some(1), &[Some(1), None, None, None]),
    (None, &[Some(1), Some(2), Some(3), None]),
];

/// Asks an iterator for four items once 1, 2, 3 were pushed, and then a new one once 4 was. Asserts what both give, that 4 is accepted, and that the queue is not closed.
fn walks<R: Wait + Abort>(rt: &R, alloc: Global, cap: Option<usize>, expected: &[Option<u64>]) {
    let (queue, mut party) = open_surely(rt, alloc, cap);
    find_each(rt, &queue, &mut party, Deed::PushOnce, 1..4);
    let first = four(rt, &queue, &mut party);
    let pushed = queue.push(rt, &mut party, 4).is_ok();
    let second = four(rt, &queue, &mut party);
    let closed = queue.is_closed(&mut party);
    let seen = (&first[..], second, pushed, closed);
    is(
        rt,
        seen,
        (expected, [Some(4), None, None, None], true, false),
    );
}

/// After an iterator has ended the queue takes one more, which a new iterator gives.
#[test]
fn an_iterator_takes_from_the_front(rt: HostRuntime) {
    for (cap, expected) in WALKS.iter() {
        walks(&rt, rt.alloc(), *cap, expected);
    }
}

/// Lets one party push between two items of the other's iterator. Gives what that gives.
fn between<R: Wait + Abort>(rt: &R, alloc: Global, cap: Option<usize>) -> [Option<u64>; 3] {
    let (queue, party) = open_surely(rt, alloc, cap);
    let (mut first, mut second) = part(rt, &queue, party);
    let mut items = queue.try_iter(rt, &mut second);
    let none = items.next();
    let _ = queue.push(rt, &mut first, 7);
    [none, items.next(), items.next()]
}

/// It goes on after a `None`.
#[test]
fn an_iterator_gives_items_again(rt: HostRuntime) {
    for cap in [Some(1), Some(2), None] {
        let items = between(&rt, rt.alloc(), cap);
        is_in(&rt, cap, items, [None, Some(7), None]);
    }
}

/// The capacity, if there is one; how many items have gone through before, and how many are pushed and popped then; and whether the queue is closed.
type Used = (Option<usize>, u64, u64, u64, bool);

static USES: [Used; 14] = [
    (Some(2), 0, 1, 0, false),
    (Some(2), 0, 2, 1, true),
    (Some(300), 0, 250, 13, false),
    (Some(1), 0, 0, 0, false),
    (Some(1), 0, 1, 0, false),
    (Some(1), 0, 1, 0, true),
    (Some(1), 0, 1, 1, true),
    (None, 0, 0, 0, true),
    (None, 0, 3, 1, false),
    (None, 0, 63, 63, false),
    (None, 0, 200, 70, false),
    (Some(3), 1000, 3, 1, false),
    (Some(5000), 4000, 4321, 21, false),
    (None, 1000, 200, 70, true),
];

/// A queue that has been used so, and its only party.
fn used<R: Wait + Abort>(rt: &R, alloc: Global, used: &Used) -> (Queue, Party<u64>)
    ensures { IsPartyOf result.1 result.0 }
{
    let (cap, before, pushes, pops, closed) = *used;
    let (queue, mut party) = open_surely(rt, alloc, cap);
    find_each(rt, &queue, &mut party, Deed::PushAndPop, 0..before);
    find_each(rt, &queue, &mut party, Deed::PushOnce, 0..pushes);
    find_each(rt, &queue, &mut party, Deed::PopOnce, 0..pops);
    if closed {
        queue.close(&mut party);
    }
    (queue, party)
}

/// What is printed of a queue, and of an iterator over it.
fn printed<R: Wait + Abort>(rt: &R, alloc: Global, queue: &Queue, party: &mut Party<u64>) -> String
    requires { IsPartyOf party.old queue.now }
{
    let items = queue.try_iter(rt, party);
    let text: Result<_, _> = format!(in alloc; "{queue:?} {items:?}");
    text.expect(rt, "memory")
}

/// What is to be printed of a queue that has been used so, and of an iterator over it.
fn to_be_printed(rt: &impl Abort, alloc: Global, used: &Used) -> String {
    let (capacity, _, pushes, pops, is_closed) = *used;
    let len = pushes.wrapping_sub(pops);
    let text: Result<_, _> = format!(in alloc;
        "ConcurrentQueue {{ len: {len}, capacity: {capacity:?}, is_closed: {is_closed} }}"
    );
    let text: String = text.expect(rt, "memory");
    let both: Result<_, _> = format!(in alloc; "{text} Iter({text})");
    both.expect(rt, "memory")
}

/// Asserts what is printed of a queue, and of an iterator over it.
fn is_printed<R: Wait + Abort>(rt: &R, alloc: Global, case: &Used) {
    let (queue, mut party) = used(rt, alloc, case);
    let found = printed(rt, alloc, &queue, &mut party);
    is(rt, found, to_be_printed(rt, alloc, case));
}

#[test]
fn queues_and_iterators_are_printed(rt: HostRuntime) {
    for case in USES.iter() {
        is_printed(&rt, rt.alloc(), case);
    }
}

/// Pushes so many items into an empty queue and pops them, so many times. Gives whether the length was right after each call.
fn swings<R: Wait>(rt: &R, queue: &Queue, party: &mut Party<u64>, items: u64, times: u64) -> bool
    requires { IsPartyOf party.old queue.now }
    ensures { IsPartyOf party.new queue.now }
{
    let mut right = queue.len(rt, party) == 0;
    for _ in 0..times {
        right = find_each(rt, queue, party, Deed::PushToLen, 0..items) && right;
        right = find_each(rt, queue, party, Deed::PopToLen(items), 0..items) && right;
    }
    right
}

/// A few items often, and many once.
#[test]
fn length_after_each_call(rt: HostRuntime) {
    for cap in [Some(1000), None] {
        let (queue, mut party) = open_surely(&rt, rt.alloc(), cap);
        let few = swings(&rt, &queue, &mut party, 100, 50);
        let many = swings(&rt, &queue, &mut party, 1000, 1);
        is_in(&rt, cap, (few, many), (true, true));
    }
}
