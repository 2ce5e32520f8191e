//! Who waits for a condition: threads at an eventcount, and futures on a list of wakers, where the channel has one.
ghost use Rattle.std.specs.Prelude.{◌≡◌, Some, None, IfSome, IfOk, IsSome};
ghost use Rattle.std.specs.Arc.{arc_value};
ghost use Rattle.counted_channel.specs.QueueCalls.Waiting.{list_of, list_for_one, list_for_all};

use event_count::{EventCount, Patience};
use std::alloc::{AllocError, Global};
use std::sync::Arc;
use waker_list::WakerList;

/// Who waits for a condition. Each notify wakes threads and futures.
#[derive(Drop)]
pub struct Waiters<C: Drop> {
    threads: EventCount<C>,
    futures: Option<Arc<WakerList<C>>>,
}

/// The condition was made true for one that waits, and nobody was notified yet. It cannot be dropped, and names whom it notifies.
pub struct OwesOne<'a, C: Drop> {
    thread: event_count::OwesOne<'a, C>,
    future: Option<waker_list::OwesOne<'a, C>>,
}

/// The condition was made true for all that wait, and nobody was notified yet. It cannot be dropped, and names whom it notifies.
pub struct OwesAll<'a, C: Drop> {
    threads: event_count::OwesAll<'a, C>,
    futures: Option<waker_list::OwesAll<'a, C>>,
}

/// Wakes one future of those that wait.
#[cold]
#[inline(never)]
fn notify_future<C: Drop>(owed: waker_list::OwesOne<'_, C>) {
    owed.notify();
}

impl<C: Drop> OwesOne<'_, C> {
    /// Wakes one thread and one future of those that wait.
    #[inline(always)]
    pub fn notify(self) {
        let OwesOne { thread, future } = self;
        thread.notify();
        if let Some(owed) = future {
            notify_future(owed);
        }
    }
}

impl<C: Drop> OwesAll<'_, C> {
    /// Wakes all that wait.
    #[inline]
    pub fn notify(self) {
        let OwesAll { threads, futures } = self;
        threads.notify();
        if let Some(owed) = futures {
            owed.notify();
        }
    }
}

impl<C: Drop> Waiters<C> {
    /// Threads may wait.
    pub fn of_threads() -> Waiters<C>
        ensures { list_of result ≡ None }
    {
        Waiters {
            threads: EventCount::new(),
            futures: None,
        }
    }

    /// Threads and futures may wait.
    ///
    /// # Errors
    ///
    /// There is no memory.
    pub fn with_futures(alloc: Global) -> Result<Waiters<C>, AllocError>
        ensures { IfOk result (λ w. IsSome (list_of w)) }
    {
        Ok(Waiters {
            threads: EventCount::new(),
            futures: Some(Arc::new(alloc, WakerList::new(alloc)?)?),
        })
    }

    /// How a thread waits.
    #[inline]
    pub fn patience(&self) -> Patience<'_, C> {
        Patience::new(&self.threads)
    }

    /// The list of those that wait in futures, where they may, and it may have one more owner.
    pub fn list(&self) -> Option<Arc<WakerList<C>>>
        ensures { IfSome result (λ l. list_of self.now ≡ Some (arc_value l).source.id) }
    {
        let list = self.futures.as_ref()?;
        Arc::try_clone(list).ok()
    }

    /// The condition was made true for one, as its own code says of threads and of futures.
    #[inline(always)]
    pub(crate) fn owe_one(&self, threads: C, futures: C) -> OwesOne<'_, C>
        ensures { list_for_one result ≡ list_of self.now }
    {
        OwesOne {
            thread: self.threads.owe_one(threads),
            future: match &self.futures {
                Some(list) => Some(list.owe_one(futures)),
                None => None,
            },
        }
    }

    /// The condition was made true for all, as its own code says of threads and of futures.
    #[inline(always)]
    pub(crate) fn owe_all(&self, threads: C, futures: C) -> OwesAll<'_, C>
        ensures { list_for_all result ≡ list_of self.now }
    {
        OwesAll {
            threads: self.threads.owe_all(threads),
            futures: match &self.futures {
                Some(list) => Some(list.owe_all(futures)),
                None => None,
            },
        }
    }
}
