//! The kit's combinators over ends in futures.
use crate::asserts::is_in;
use crate::opening::{CAPACITIES, incoming, opened};
use channel_futures::{Disconnected, Incoming};
use futures::executor::block_on;
use futures::{StreamExt, future, stream};
use std::alloc::AllocGlobal;
use std::process::Abort;
use std::random::RandomSource;
use std::sync::Wait;

/// What a future of each of two streams gives.
fn both<R: Wait + RandomSource + AllocGlobal + Abort>(
    rt: &R,
    one: &mut Incoming<u64>,
    two: &mut Incoming<u64>,
) -> (Result<u64, Disconnected>, Result<u64, Disconnected>) {
    block_on(rt, future::join(one.recv(), two.recv())).expect(rt, "memory")
}

/// What comes first to either of two streams.
fn first<R: Wait + RandomSource + AllocGlobal + Abort>(
    rt: &R,
    one: Incoming<u64>,
    two: Incoming<u64>,
) -> Option<u64> {
    let streams = vec![in rt.alloc(); one, two].expect(rt, "memory");
    let mut either = stream::select_all(rt.alloc(), streams).expect(rt, "memory");
    block_on(rt, either.next()).expect(rt, "memory")
}

/// Two futures are joined, and two streams are selected from.
#[test]
fn two_streams_are_one(rt: HostRuntime) {
    for cap in CAPACITIES {
        let (mut left, one) = opened(&rt, cap);
        let (mut right, two) = opened(&rt, cap);
        let (mut one, mut two) = (incoming(&rt, one), incoming(&rt, two));
        is_in(&rt, cap, left.send(&rt, 1), Ok(()));
        is_in(&rt, cap, right.send(&rt, 2), Ok(()));
        is_in(&rt, cap, both(&rt, &mut one, &mut two), (Ok(1), Ok(2)));
        is_in(&rt, cap, right.send(&rt, 3), Ok(()));
        is_in(&rt, cap, first(&rt, one, two), Some(3));
    }
}
