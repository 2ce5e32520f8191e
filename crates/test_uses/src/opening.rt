//! Queues of every kind and their parties, as the tests open and part them.
ghost use Rattle.std.specs.Prelude.{◌≡◌};
ghost use Rattle.queue_steps.specs.Shares.{entire};
ghost use Rattle.concurrent_queue.specs.Shared.{IsPartyOf};

use concurrent_queue::{ConcurrentQueue, Party};
use std::alloc::Global;
use std::process::Abort;

/// An empty open queue of this capacity, or without one, and its only party. Asserts that there is memory, and that the capacity is not 0.
pub(crate) fn open_surely(
    rt: &impl Abort,
    alloc: Global,
    cap: Option<usize>,
) -> (ConcurrentQueue<u64>, Party<u64>)
    ensures { IsPartyOf result.1 result.0 × (result.1.view.share ≡ entire) }
{
    let opened = match cap {
        Some(0) => panic!(rt; "a capacity of 0"),
        Some(slots) => ConcurrentQueue::bounded(alloc, slots),
        None => ConcurrentQueue::unbounded(alloc),
    };
    match opened {
        Ok(both) => both,
        Err(_) => panic!(rt; "no memory"),
    }
}
