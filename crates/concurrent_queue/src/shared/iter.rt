//! The items of a shared queue, taken off one by one.
ghost use Rattle.std.specs.Prelude.{◌≡◌};
ghost use Rattle.concurrent_queue.specs.Shared.{IsPartyOf};
ghost use Rattle.concurrent_queue.specs.SharedIter.{IsIterOf, IterPops, iter_lender};

use crate::party::Party;
use crate::shared::ConcurrentQueue;
use std::alloc::{Allocator, Global};
use std::fmt;
use std::sync::Wait;

/// Takes items off a shared queue for a party, the front first. What it does not take stays in the queue.
///
/// It is no `Iterator`, since its `next` may wait and it has no end: after a `None` it may give items again.
pub struct TryIter<'a, T, R, A: Allocator = Global> {
    party: &'a mut Party<T>,
    queue: &'a ConcurrentQueue<T, A>,
    rt: &'a R,
}

impl<'a, T, R, A: Allocator> Drop for TryIter<'a, T, R, A> {
    /// The party keeps what it has done.
    fn drop(self)
        ensures { self.exit.0.now ≡ self.entry.party.now }
    {
        let TryIter {
            party: _,
            queue: _,
            rt: _,
        } = self;
    }
}

impl<T, A: Allocator> ConcurrentQueue<T, A> {
    /// The items, each of which is popped for the party as it is asked for. It asks for no memory, and closes nothing. It keeps `rt` for `next`, which asks
    /// that it is a right to wait.
    pub fn try_iter<'a, R>(&'a self, rt: &'a R, party: &'a mut Party<T>) -> TryIter<'a, T, R, A>
        requires is_party { IsPartyOf party.old self.now }
        ensures of { (result.queue.now ≡ self.now) × (result.party.now ≡ party.old) × IsIterOf result }
        ensures same_reference { iter_lender result ≡ party.entry.ghost_name }
    {
        TryIter {
            party,
            queue: self,
            rt,
        }
    }
}

impl<'a, T, R: Wait, A: Allocator> TryIter<'a, T, R, A> {
    /// Pops the front. It waits while another call has the item that it needs.
    pub fn next(&mut self) -> Option<T>
        requires { IsIterOf self.old }
        ensures pops { IterPops self.old result self.new }
        ensures of { IsIterOf self.new }
    {
        self.queue.pop(self.rt, self.party).ok()
    }
}

impl<T, R, A: Allocator> fmt::Debug for TryIter<'_, T, R, A> {
    fn fmt<W: fmt::Write>(&self, f: &mut fmt::Formatter<W>) -> fmt::Result {
        let queue = self.queue;
        write!(f, "Iter({queue:?})")
    }
}
