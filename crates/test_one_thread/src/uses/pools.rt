//! Places are taken until none is left, and one is given back between.
ghost use Rattle.std.specs.Prelude.{◌<◌};

use crate::asserts::is_in;
use std::alloc::Global;
use std::process::Abort;
use test_support::allocators::{Heap, Refusal};
use use_owner::pool::Pool;

/// Takes all places of a pool but the last. Gives whether each came in its turn.
fn takes_all_but_one(pool: &mut Pool<&Heap>, count: usize) -> bool {
    let mut right = true;
    for place in 1..count as u64 {
        right = pool.take() == Some(place - 1) && right;
    }
    right
}

/// Whether a place was given back, and which two were taken then.
type GivenBack = (Result<(), u64>, Option<u64>, Option<u64>);

/// Takes the last place of a pool, gives it back and takes it again.
fn takes_the_last(rt: &impl Abort, pool: &mut Pool<&Heap>) -> (u64, GivenBack) {
    let last = pool.take().expect(rt, "a last place");
    (last, (pool.give_back(last), pool.take(), pool.take()))
}

/// Takes all places of a pool but the last, and then the last one, which is given back and taken again. Asserts that each was out once, that no other was, and that the pool, of which all places are out, leaves nothing allocated once it is dropped.
fn places_are_out(rt: &impl Abort, alloc: Global, count: usize)
    requires { 1 < count }
{
    let heap = Heap::new(alloc, Refusal::Never);
    let mut pool = Pool::new(&heap, count).expect(rt, "memory");
    let right = takes_all_but_one(&mut pool, count);
    let (last, seen) = takes_the_last(rt, &mut pool);
    let held = heap.live();
    drop(pool);
    is_in(
        rt,
        count,
        (right, last.wrapping_add(1), seen, 0 < held, heap.live()),
        (true, count as u64, (Ok(()), Some(last), None), true, 0),
    );
}

#[test]
fn a_place_is_out_once(rt: HostRuntime) {
    for count in [2, 3, 5000usize] {
        places_are_out(&rt, rt.alloc(), count);
    }
}
