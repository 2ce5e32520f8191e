//! New channels.
ghost use Rattle.std.specs.Prelude.{◌≡◌, ◌<◌, Some, None, IfOk, IsErr};
ghost use Rattle.queue_steps.specs.declared.sizes.TheConstants.{MAX_CAPACITY};
ghost use Rattle.channel_account.specs.Told.{AreNew};

use crate::ends::{Receiver, Sender};
use concurrent_queue::NullTestable;
use std::alloc::{AllocError, Allocator};

/// The two ends of a channel that has room for `cap` items.
///
/// # Errors
///
/// Where there is no memory, or the capacity is above `MAX_CAPACITY`.
#[tactic(auto, using(crate::proofs::Own::news))]
pub fn bounded<T: Drop, A: Allocator + Clone>(
    alloc: A,
    cap: usize,
) -> Result<(Sender<T, A>, Receiver<T, A>), AllocError>
    requires { 0 < cap }
    ensures new { IfOk result (λ r. AreNew (Some cap) r.0 r.1) }
    ensures limited { MAX_CAPACITY < cap → IsErr result }
{
    let (sender, receiver) = channel_handle::bounded(alloc, cap)?;
    Ok((Sender { end: sender }, Receiver { end: receiver }))
}

/// The two ends of a channel without a capacity.
///
/// # Errors
///
/// Where there is no memory, or an item has 2^31 bytes or more.
#[tactic(auto, using(crate::proofs::Own::news))]
pub fn unbounded<T: Drop, A: NullTestable + Clone>(
    alloc: A,
) -> Result<(Sender<T, A>, Receiver<T, A>), AllocError>
    ensures { IfOk result (λ r. AreNew None r.0 r.1) }
{
    let (sender, receiver) = channel_handle::unbounded(alloc)?;
    Ok((Sender { end: sender }, Receiver { end: receiver }))
}
