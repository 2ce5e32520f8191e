//! The items of a queue with one owner, taken off one by one.
ghost use Rattle.std.specs.Prelude.{◌≡◌, Some};
ghost use Rattle.std.specs.Iterator.{item_count};
ghost use Rattle.exclusive_queue.specs.Iterating.{iter_rest, iter_lender, IterSteps, IterKeepsAlong};
ghost use Rattle.exclusive_queue.specs.QueueText.{iter_text};

use crate::exclusive::Exclusive;
use std::alloc::{Allocator, Global};
use std::fmt;

/// Takes the items of a queue off, the front first. It ends once the queue is empty; what it did not take stays in the queue.
pub struct TryIter<'a, T, A: Allocator = Global> {
    queue: &'a mut Exclusive<T, A>,
}

impl<'a, T, A: Allocator> Drop for TryIter<'a, T, A> {
    /// The queue keeps what was not taken.
    fn drop(self)
        ensures { self.exit.0.now ≡ self.entry.queue.now }
    {
        let TryIter { queue: _ } = self;
    }
}

impl<T, A: Allocator> Exclusive<T, A> {
    /// The items, each of which is popped as it is asked for. It asks for no memory, and closes nothing.
    pub fn try_iter(&mut self) -> TryIter<'_, T, A>
        ensures all { result.queue.now ≡ self.old }
        ensures same_reference { iter_lender result ≡ self.entry.ghost_name }
        ensures stays { IterKeepsAlong result }
    {
        TryIter { queue: self }
    }
}

impl<'a, T, A: Allocator> Iterator for TryIter<'a, T, A> {
    type Item = T;

    ghost next_gives = { IterSteps };

    ghost remaining = { item_count iter_rest };

    /// Pops the front.
    fn next(&mut self) -> Option<T> {
        self.queue.pop().ok()
    }
}

impl<T, A: Allocator> fmt::Debug for TryIter<'_, T, A> {
    ghost debug_output = { λ it. Some (iter_text it.queue.now) };

    fn fmt<W: fmt::Write>(&self, f: &mut fmt::Formatter<W>) -> fmt::Result {
        let queue = &*self.queue;
        write!(f, "Iter({queue:?})")
    }
}
