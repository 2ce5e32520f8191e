//! New channels.
ghost use Rattle.std.specs.Prelude.{◌<◌, Some, None, IfOk, IsErr};
ghost use Rattle.queue_steps.specs.declared.sizes.TheConstants.{MAX_CAPACITY};
ghost use Rattle.std.specs.Prelude.{◌≡◌};
ghost use Rattle.concurrent_queue.specs.Shared.{IsPartyOf, Parts};
ghost use Rattle.queue_steps.specs.Shares.{entire};
ghost use Rattle.channel_handle.specs.Ends.{AreEnds, IsPair};

use crate::handle::{Handle, Receiver, Sender};
use crate::owed::Owed;
use concurrent_queue::{ConcurrentQueue, NullTestable, Party};
use counted_channel::channel;
use std::alloc::{AllocError, Allocator};
use std::sync::Arc;

/// The two ends of a channel that has room for `cap` items.
///
/// # Errors
///
/// Where there is no memory, or the capacity is above `MAX_CAPACITY`.
pub fn bounded<T: Drop, A: Allocator + Clone>(
    alloc: A,
    cap: usize,
) -> Result<(Sender<T, A>, Receiver<T, A>), AllocError>
    requires { 0 < cap }
    ensures pair { IfOk result (λ r. IsPair (Some cap) r.0 r.1) }
    ensures limited { MAX_CAPACITY < cap → IsErr result }
{
    let (queue, party) = ConcurrentQueue::bounded(alloc.clone()?, cap)?;
    open(alloc, queue, party)
}

/// The two ends of a channel without a capacity.
///
/// # Errors
///
/// Where there is no memory, or an item has 2^31 bytes or more.
pub fn unbounded<T: Drop, A: NullTestable + Clone>(
    alloc: A,
) -> Result<(Sender<T, A>, Receiver<T, A>), AllocError>
    ensures { IfOk result (λ r. IsPair None r.0 r.1) }
{
    let (queue, party) = ConcurrentQueue::unbounded(alloc.clone()?)?;
    open(alloc, queue, party)
}

/// The two ends of a channel over this queue.
fn open<T: Drop, A: Allocator + Clone>(
    alloc: A,
    queue: ConcurrentQueue<T, A>,
    party: Party<T>,
) -> Result<(Sender<T, A>, Receiver<T, A>), AllocError>
    requires { IsPartyOf party queue }
    ensures { IfOk result (λ r. AreEnds party r.0 r.1) }
{
    let Ok((channel, sender, receiver)) = channel(alloc.clone()?, queue, party) else {
        return Err(AllocError);
    };
    let channel = Arc::new(alloc, channel)?;
    let other = Arc::try_clone(&channel)?;
    let sender = Handle {
        channel,
        owed: Owed { end: sender },
    };
    let receiver = Handle {
        channel: other,
        owed: Owed { end: receiver },
    };
    Ok((sender, receiver))
}
