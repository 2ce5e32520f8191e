//! A receiver's items, one after another. Each iterator holds a `Forever`, whose count is the measure of a loop over it.
ghost use Rattle.std.specs.Prelude.{◌≡◌};
ghost use Rattle.std.specs.Iterator.{at_most};
ghost use Rattle.channel_handle.specs.Iter.{iter_left, iter_lender, IterReceives, IterKeepsAlong};
ghost use Rattle.channel_handle.specs.Iter.{try_iter_left, try_iter_lender, TryIterReceives, TryIterKeepsAlong};

use crate::handle::Receiver;
use std::alloc::{Allocator, Global};
use std::sync::{Forever, Wait};

impl<T: Drop, A: Allocator> Receiver<T, A> {
    /// Items as they come, until the channel is closed and empty. It waits for each.
    pub fn iter<'a, R: Wait>(&'a mut self, rt: &'a R) -> Iter<'a, T, R, A>
        ensures of { result.receiver.now ≡ self.old }
        ensures same_reference { iter_lender result ≡ self.entry.ghost_name }
        ensures stays { IterKeepsAlong result }
    {
        Iter {
            receiver: self,
            rt,
            turns: rt.forever(),
        }
    }

    /// Items that are there. It may give more later.
    pub fn try_iter<'a, R: Wait>(&'a mut self, rt: &'a R) -> TryIter<'a, T, R, A>
        ensures of { result.receiver.now ≡ self.old }
        ensures same_reference { try_iter_lender result ≡ self.entry.ghost_name }
        ensures stays { TryIterKeepsAlong result }
    {
        TryIter {
            receiver: self,
            rt,
            turns: rt.forever(),
        }
    }
}

/// Waits for each item, and ends where the channel is closed and empty.
pub struct Iter<'a, T: Drop, R: Wait, A: Allocator = Global> {
    receiver: &'a mut Receiver<T, A>,
    rt: &'a R,
    turns: Forever<'a, R>,
}

impl<'a, T: Drop, R: Wait, A: Allocator> Drop for Iter<'a, T, R, A> {
    /// The receiver keeps what it has done.
    fn drop(self)
        ensures { self.exit.0.now ≡ self.entry.receiver.now }
    {
        let Iter {
            receiver: _,
            rt: _,
            turns: _,
        } = self;
    }
}

impl<'a, T: Drop, R: Wait, A: Allocator> Iterator for Iter<'a, T, R, A> {
    type Item = T;

    ghost next_gives = { IterReceives };

    ghost remaining = { λ s. at_most (iter_left s) };

    fn next(&mut self) -> Option<T> {
        self.turns.next();
        self.receiver.recv(self.rt).ok()
    }
}

/// Ends where there is no item.
pub struct TryIter<'a, T: Drop, R: Wait, A: Allocator = Global> {
    receiver: &'a mut Receiver<T, A>,
    rt: &'a R,
    turns: Forever<'a, R>,
}

impl<'a, T: Drop, R: Wait, A: Allocator> Drop for TryIter<'a, T, R, A> {
    /// The receiver keeps what it has done.
    fn drop(self)
        ensures { self.exit.0.now ≡ self.entry.receiver.now }
    {
        let TryIter {
            receiver: _,
            rt: _,
            turns: _,
        } = self;
    }
}

impl<'a, T: Drop, R: Wait, A: Allocator> Iterator for TryIter<'a, T, R, A> {
    type Item = T;

    ghost next_gives = { TryIterReceives };

    ghost remaining = { λ s. at_most (try_iter_left s) };

    fn next(&mut self) -> Option<T> {
        self.turns.next();
        self.receiver.try_recv(self.rt).ok()
    }
}
