//! A receiver's items, by an iterator that has the receiver. Its `Forever` is the measure of a loop over it.
ghost use Rattle.std.specs.Prelude.{◌≡◌};
ghost use Rattle.std.specs.Iterator.{at_most};
ghost use Rattle.channel_handle.specs.Iter.{into_iter_left, IntoIterReceives};

use crate::handle::Receiver;
use std::alloc::{Allocator, Global};
use std::sync::{Forever, Wait};

impl<T: Drop, A: Allocator> Receiver<T, A> {
    /// As `iter`, of a receiver that is taken in. The receiver is ended with the iterator.
    pub fn into_iter<'a, R: Wait>(self, rt: &'a R) -> IntoIter<'a, T, R, A>
        ensures { result.receiver ≡ self }
    {
        IntoIter {
            receiver: self,
            rt,
            turns: rt.forever(),
        }
    }
}

/// An [`Iter`](crate::Iter) that has its receiver.
#[derive(Drop)]
pub struct IntoIter<'a, T: Drop, R: Wait, A: Allocator = Global> {
    receiver: Receiver<T, A>,
    rt: &'a R,
    turns: Forever<'a, R>,
}

impl<'a, T: Drop, R: Wait, A: Allocator> Iterator for IntoIter<'a, T, R, A> {
    type Item = T;

    ghost next_gives = { IntoIterReceives };

    ghost remaining = { λ s. at_most (into_iter_left s) };

    fn next(&mut self) -> Option<T> {
        self.turns.next();
        self.receiver.recv(self.rt).ok()
    }
}
