//! Calls that are tried, none of which waits.
ghost use Rattle.std.specs.Prelude.{◌≢◌, None};
ghost use Rattle.concurrent_queue.specs.Shared.{IsPartyOf};

use concurrent_queue::{ConcurrentQueue, Party, TryPopError, TryPushError};
use std::thread::yield_now;

/// Appends a value, in so many tries at most. Tells whether it did.
pub fn push_in_tries(
    queue: &ConcurrentQueue<u64>,
    party: &mut Party<u64>,
    value: u64,
    tries: u64,
) -> bool
    requires { IsPartyOf party.old queue.now }
    ensures { IsPartyOf party.new queue.now }
{
    for _ in 0..tries {
        match queue.try_push(party, value) {
            Ok(()) => return true,
            Err(TryPushError::Full(_) | TryPushError::Busy(_)) => yield_now(),
            Err(TryPushError::Closed(_) | TryPushError::NoMemory(_)) => return false,
        }
    }
    false
}

/// Takes the front of a queue with a capacity, in so many tries at most.
pub fn pop_in_tries(queue: &ConcurrentQueue<u64>, party: &mut Party<u64>, tries: u64) -> Option<u64>
    requires is_party { IsPartyOf party.old queue.now }
    requires capped { queue.now.cap ≢ None }
    ensures { IsPartyOf party.new queue.now }
{
    for _ in 0..tries {
        match queue.try_pop(party) {
            Ok(value) => return Some(value),
            Err(TryPopError::Empty | TryPopError::Busy) => yield_now(),
            Err(TryPopError::Closed) => return None,
        }
    }
    None
}
