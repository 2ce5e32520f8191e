//! Nothing is left of a queue without a capacity that is dropped, with its parties joined, kept or dropped before.
ghost use Rattle.std.specs.Prelude.{◌≡◌, ◌<◌};
ghost use Rattle.concurrent_queue.specs.Shared.{IsPartyOf};

use crate::asserts::is_in;
use crate::items::{Item, Items};
use crate::opening::{end, part};
use concurrent_queue::{ConcurrentQueue, Party};
use std::alloc::Global;
use std::process::Abort;
use std::sync::Wait;
use test_support::allocators::{Heap, Refusal};

/// A shared queue whose requests are counted.
type Counting<'a> = ConcurrentQueue<Item, &'a Heap>;

/// What becomes of two parties.
#[derive(Clone, Copy, Debug)]
enum End {
    Joined,
    Kept,
    Dropped,
}

/// How many items each of two parties pushes, how many are popped then, and what becomes of the parties.
type Use = (u64, u64, End);

/// Pushes by two parties in turn, and pops. Asserts that there are as many items to pop, and that what was refused or popped is dropped then.
fn push_and_pop<R: Wait + Abort>(
    rt: &R,
    queue: &Counting<'_>,
    a: &mut Party<Item>,
    b: &mut Party<Item>,
    items: &Items,
    used: Use,
)
    requires { IsPartyOf a.old queue.now × IsPartyOf b.old queue.now }
    ensures { IsPartyOf a.new queue.now × IsPartyOf b.new queue.now }
{
    let (each, popped, _) = used;
    let mut pushed = 0u64;
    for number in 0..each {
        let first = queue.push(rt, a, items.item(rt, number)).is_ok();
        let second = queue.push(rt, b, items.item(rt, number)).is_ok();
        pushed = pushed.wrapping_add(u64::from(first));
        pushed = pushed.wrapping_add(u64::from(second));
    }
    let mut right = true;
    for _ in 0..popped {
        right = queue.pop(rt, b).is_ok() && right;
    }
    let left = pushed.wrapping_sub(popped);
    is_in(rt, used, (right, items.alive()), (true, left));
}

/// Drops a queue, with its parties joined, kept or dropped before.
fn drop_all(rt: &impl Abort, queue: Counting<'_>, a: Party<Item>, b: Party<Item>, how: End)
    requires { IsPartyOf a queue × IsPartyOf b queue }
{
    match how {
        End::Joined => {
            let whole = queue.join(a, b);
            drop(end(rt, queue, whole));
        }
        End::Kept => drop((queue, a, b)),
        End::Dropped => drop((b, a, queue)),
    }
}

/// Uses a queue and drops it. Gives how many items there were: none where there was no memory for the queue.
fn use_and_drop<R: Wait + Abort>(rt: &R, heap: &Heap, items: &Items, used: Use) -> u64 {
    let Ok((queue, party)) = Counting::unbounded(heap) else {
        return 0;
    };
    let (mut a, mut b) = part(rt, &queue, party);
    push_and_pop(rt, &queue, &mut a, &mut b, items, used);
    drop_all(rt, queue, a, b, used.2);
    used.0.wrapping_mul(2)
}

/// How many items each of two parties pushes, and how many are popped. Of 200 none, some past a block, and all but one; of 126, behind which an empty block lies, none, one less than a block's, and all but one.
static USES: [(u64, u64); 6] = [
    (100, 0),
    (100, 80),
    (100, 199),
    (63, 0),
    (63, 62),
    (63, 125),
];

/// Uses a queue and drops it, where the request of this number is refused. Asserts that each item is dropped once and nothing stays allocated.
fn nothing_is_left<R: Wait + Abort>(rt: &R, alloc: Global, used: Use, refused: u64) {
    let heap = Heap::new(alloc, Refusal::Nth(refused));
    let items = Items::none(rt, alloc);
    let used_up = use_and_drop(rt, &heap, &items, used);
    let wanted = if refused == 1 {
        0
    } else {
        used.0.wrapping_mul(2)
    };
    let seen = [used_up, items.alive(), heap.live()];
    is_in(rt, (used, refused), seen, [wanted, 0, 0]);
}

/// With none and each of the requests refused, which are one of the constructor and up to four of the pushes. Each item is dropped once and nothing stays allocated.
#[test]
fn nothing_is_left_of_a_dropped_queue(rt: HostRuntime) {
    for how in [End::Joined, End::Kept, End::Dropped] {
        for (each, popped) in USES.iter() {
            for refused in 0..8u64 {
                nothing_is_left(&rt, rt.alloc(), (*each, *popped, how), refused);
            }
        }
    }
}
