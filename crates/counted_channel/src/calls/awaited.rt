//! What the ends of a channel wait for.
ghost use Rattle.std.specs.Prelude.{◌≡◌, None, IfOk, IsSome};
ghost use Rattle.counted_channel.specs.QueueCalls.Waiting.{list_of};

use crate::calls::waited::{Items, Room};
use crate::calls::waiters::Waiters;
use std::alloc::{AllocError, Global};

/// What the ends of a channel wait for: receivers for items, senders for room. No other crate can name it.
#[derive(Drop)]
pub struct Awaited {
    pub(crate) items: Waiters<Items>,
    pub(crate) room: Waiters<Room>,
}

impl Awaited {
    /// For ends in threads.
    pub(crate) fn of_threads() -> Awaited
        ensures { (list_of result.items ≡ None) × (list_of result.room ≡ None) }
    {
        Awaited {
            items: Waiters::of_threads(),
            room: Waiters::of_threads(),
        }
    }

    /// For ends in threads and in futures.
    ///
    /// # Errors
    ///
    /// There is no memory.
    pub(crate) fn with_futures(alloc: Global) -> Result<Awaited, AllocError>
        ensures { IfOk result (λ a. IsSome (list_of a.items) × IsSome (list_of a.room)) }
    {
        Ok(Awaited {
            items: Waiters::with_futures(alloc)?,
            room: Waiters::with_futures(alloc)?,
        })
    }
}
