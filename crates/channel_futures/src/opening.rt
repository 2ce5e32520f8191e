//! New channels, whose ends may be in threads and in futures.
ghost use Rattle.std.specs.Prelude.{◌≡◌, ◌<◌, Some, None, IfOk, IsErr};
ghost use Rattle.queue_steps.specs.declared.sizes.TheConstants.{MAX_CAPACITY};
ghost use Rattle.concurrent_queue.specs.Shared.{IsPartyOf};
ghost use Rattle.channel_handle.specs.Ends.{AreEnds, IsPair};

use channel_handle::{Handle, Receiver, Sender};
use concurrent_queue::{ConcurrentQueue, Party};
use counted_channel::channel_with_futures;
use std::alloc::{AllocError, Global};
use std::sync::Arc;

/// The two ends of a channel that has room for `cap` items.
///
/// # Errors
///
/// Where there is no memory, or the capacity is above `MAX_CAPACITY`.
pub fn bounded<T: Drop>(alloc: Global, cap: usize) -> Result<(Sender<T>, Receiver<T>), AllocError>
    requires { 0 < cap }
    ensures pair { IfOk result (λ r. IsPair (Some cap) r.0 r.1) }
    ensures limited { MAX_CAPACITY < cap → IsErr result }
{
    let (queue, party) = ConcurrentQueue::bounded(alloc, cap)?;
    open(alloc, queue, party)
}

/// The two ends of a channel without a capacity.
///
/// # Errors
///
/// Where there is no memory, or an item has 2^31 bytes or more.
pub fn unbounded<T: Drop>(alloc: Global) -> Result<(Sender<T>, Receiver<T>), AllocError>
    ensures { IfOk result (λ r. IsPair None r.0 r.1) }
{
    let (queue, party) = ConcurrentQueue::unbounded(alloc)?;
    open(alloc, queue, party)
}

/// The two ends of a channel over this queue.
fn open<T: Drop>(
    alloc: Global,
    queue: ConcurrentQueue<T>,
    party: Party<T>,
) -> Result<(Sender<T>, Receiver<T>), AllocError>
    requires { IsPartyOf party queue }
    ensures { IfOk result (λ r. AreEnds party r.0 r.1) }
{
    let Ok((channel, sender, receiver)) = channel_with_futures(alloc, queue, party) else {
        return Err(AllocError);
    };
    let channel = Arc::new(alloc, channel)?;
    let other = Arc::try_clone(&channel)?;
    Ok((
        Handle::from_parts(channel, sender),
        Handle::from_parts(other, receiver),
    ))
}
