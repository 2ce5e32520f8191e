//! Every accepted item is dropped once.
ghost use Rattle.std.specs.Prelude.{◌≡◌};
ghost use Rattle.concurrent_queue.specs.Shared.{IsPartyOf};

use crate::asserts::is_in;
use crate::crew::{pop_one, push_one};
use crate::items::{Item, Items};
use crate::opening::{open_surely, part};
use concurrent_queue::{ConcurrentQueue, Party};
use std::alloc::Global;
use std::process::Abort;
use std::sync::Wait;
use std::thread::{Threads, join};

/// Pushes so many items.
fn push_all<R: Wait + Abort>(
    rt: &R,
    queue: &ConcurrentQueue<Item>,
    mut party: Party<Item>,
    items: &Items,
    count: u64,
) -> Party<Item>
    requires { IsPartyOf party queue.now }
    ensures { IsPartyOf result queue.now }
{
    for _ in 0..count {
        push_one(rt, queue, &mut party, items.item(rt, 0));
    }
    party
}

/// Pops so many items, and drops them.
fn pop_all<R: Wait>(
    rt: &R,
    queue: &ConcurrentQueue<Item>,
    mut party: Party<Item>,
    count: u64,
) -> Party<Item>
    requires { IsPartyOf party queue.now }
    ensures { IsPartyOf result queue.now }
{
    for _ in 0..count {
        drop(pop_one(rt, queue, &mut party));
    }
    party
}

/// How many items are popped and dropped.
const POPPED: u64 = 1000;

/// One thread pops and drops items, and another one pushes them and as many more as are left in a queue of this capacity, or without one. Gives how many items there are while it has its party, once that is dropped, and once the queue is.
fn items_left<R: Wait + Threads + Sync + Abort>(
    rt: &R,
    alloc: Global,
    cap: Option<usize>,
    left: u64,
) -> [u64; 3] {
    let items = Items::none(rt, alloc);
    let (queue, party) = open_surely(rt, alloc, cap);
    let (a, b) = part(rt, &queue, party);
    let (a, b) = join(
        rt,
        || push_all(rt, &queue, a, &items, POPPED.wrapping_add(left)),
        || pop_all(rt, &queue, b, POPPED),
    );
    let party = queue.join(a, b);
    let shared = items.alive();
    drop(party);
    let without_a_party = items.alive();
    drop(queue);
    [shared, without_a_party, items.alive()]
}

#[test]
fn every_item_once(rt: HostRuntime) {
    for (cap, left) in [(Some(1), 1), (Some(50), 20), (None, 77)] {
        let seen = items_left(&rt, rt.alloc(), cap, left);
        is_in(&rt, cap, seen, [left, left, 0]);
    }
}
