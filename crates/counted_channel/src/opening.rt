//! How a queue becomes a channel.
ghost use Rattle.std.specs.Prelude.{◌≡◌, None, IfOk, IsSome, MatchResult};
ghost use Rattle.concurrent_queue.specs.Shared.{IsPartyOf};
ghost use Rattle.counted_channel.specs.Channel.{Opens};
ghost use Rattle.counted_channel.specs.QueueCalls.Waiting.{list_of};

use crate::calls::{Awaited, WaitedQueue};
use crate::counting::open;
use crate::ends::Channel;
use crate::sides::{Receiver, Sender};
use concurrent_queue::{ConcurrentQueue, Party};
use std::alloc::{Allocator, Global};

/// A channel over this queue, with one sender and one receiver, which part the party between them. It asks for memory for the two counts.
///
/// # Errors
///
/// The queue and the party, both unchanged, where there is no memory for the counts, or where the queue has 2^31 parties, splits under way included.
pub fn channel<T, A: Allocator>(
    alloc: A,
    queue: ConcurrentQueue<T, A>,
    party: Party<T>,
) -> Result<(Channel<T, A>, Sender<T>, Receiver<T>), (ConcurrentQueue<T, A>, Party<T>)>
    requires is_party { IsPartyOf party queue }
    ensures opens { MatchResult result (λ r. Opens queue party r.0 r.1 r.2) (λ r. (r.0 ≡ queue) × (r.1 ≡ party)) }
    ensures in_threads { IfOk result (λ r. (r.0.receivers ≡ None) × (r.0.senders ≡ None)) }
{
    open_over(alloc, queue, party, Awaited::of_threads())
}

/// The same, with lists of those that wait in futures. It asks for memory for these too.
///
/// # Errors
///
/// As `channel`.
pub fn channel_with_futures<T>(
    alloc: Global,
    queue: ConcurrentQueue<T>,
    party: Party<T>,
) -> Result<(Channel<T>, Sender<T>, Receiver<T>), (ConcurrentQueue<T>, Party<T>)>
    requires is_party { IsPartyOf party queue }
    ensures opens { MatchResult result (λ r. Opens queue party r.0 r.1 r.2) (λ r. (r.0 ≡ queue) × (r.1 ≡ party)) }
    ensures in_futures { IfOk result (λ r. IsSome r.0.receivers × IsSome r.0.senders) }
{
    match Awaited::with_futures(alloc) {
        Ok(awaited) => open_over(alloc, queue, party, awaited),
        Err(_) => Err((queue, party)),
    }
}

/// A channel over this queue, whose ends wait so.
fn open_over<T, A: Allocator>(
    alloc: A,
    queue: ConcurrentQueue<T, A>,
    party: Party<T>,
    awaited: Awaited,
) -> Result<(Channel<T, A>, Sender<T>, Receiver<T>), (ConcurrentQueue<T, A>, Party<T>)>
    requires is_party { IsPartyOf party queue }
    ensures opens { MatchResult result (λ r. Opens queue party r.0 r.1 r.2) (λ r. (r.0 ≡ queue) × (r.1 ≡ party)) }
    ensures lists { IfOk result (λ r. (r.0.receivers ≡ list_of awaited.items) × (r.0.senders ≡ list_of awaited.room)) }
{
    let Ok((counts, sending, receiving)) = open(alloc) else {
        return Err((queue, party));
    };
    match queue.split(party) {
        Ok((first, second)) => {
            let sender = Sender::of(first, sending);
            let receiver = Receiver::of(second, receiving);
            let channel = Channel {
                queue: WaitedQueue::new(queue, awaited),
                counts,
            };
            Ok((channel, sender, receiver))
        }
        Err(party) => Err((queue, party)),
    }
}
