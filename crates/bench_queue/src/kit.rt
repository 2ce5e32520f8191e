//! The kit's queues as the loads have them: a lane of one thread, and a seat of each thread.
use crate::crew::{Refusal, Seat};
use crate::pairs::Lane;
use crossbeam_queue::{ArrayQueue, SegQueue};
use std::alloc::AllocError;
use std::sync::Wait;

/// A queue that threads share by a reference.
pub trait Shared<T> {
    /// Pushes the item. It is dropped where the queue does not take it, and then the answer is false.
    fn push_item<R: Wait>(&self, rt: &R, item: T) -> bool;

    /// Pops an item.
    fn pop_item<R: Wait>(&self, rt: &R) -> Option<T>;

    /// Pushes an item that is to lie behind.
    fn fill_item<R: Wait>(&self, rt: &R, item: T);
}

impl<T: Drop> Shared<T> for ArrayQueue<T> {
    #[inline(always)]
    fn push_item<R: Wait>(&self, rt: &R, item: T) -> bool {
        self.push(rt, item).is_ok()
    }

    #[inline(always)]
    fn pop_item<R: Wait>(&self, rt: &R) -> Option<T> {
        self.pop(rt)
    }

    fn fill_item<R: Wait>(&self, rt: &R, item: T) {
        let _ = self.force_push(rt, item);
    }
}

impl<T: Drop> Shared<T> for SegQueue<T> {
    #[inline(always)]
    fn push_item<R: Wait>(&self, rt: &R, item: T) -> bool {
        self.push(rt, item).is_ok()
    }

    #[inline(always)]
    fn pop_item<R: Wait>(&self, rt: &R) -> Option<T> {
        self.pop(rt)
    }

    fn fill_item<R: Wait>(&self, rt: &R, item: T) {
        let _ = self.push(rt, item);
    }
}

/// A queue that one thread has to itself, which it calls by a reference all the same.
#[derive(Drop)]
pub struct KitAlone<'a, R: Wait, Q> {
    pub rt: &'a R,
    pub queue: Q,
}

impl<'a, R: Wait, T: Drop, Q: Shared<T>> Lane<T> for KitAlone<'a, R, Q> {
    #[inline(always)]
    fn put(&mut self, item: T) {
        let _ = self.queue.push_item(self.rt, item);
    }

    #[inline(always)]
    fn take(&mut self) -> Option<T> {
        self.queue.pop_item(self.rt)
    }

    fn fill(&mut self, item: T) {
        self.queue.fill_item(self.rt, item);
    }
}

/// The queue as one of its threads has it. A queue that is out of memory is tried again, as a full one is.
impl<'a, Q: Shared<u64>> Seat for &'a Q {
    fn part(self) -> Result<(&'a Q, &'a Q), AllocError> {
        Ok((self, self))
    }

    fn put<R: Wait>(&mut self, rt: &R, number: u64) -> Result<(), Refusal> {
        if self.push_item(rt, number) {
            Ok(())
        } else {
            Err(Refusal::ForNow)
        }
    }

    fn take<R: Wait>(&mut self, rt: &R) -> Result<u64, Refusal> {
        self.pop_item(rt).ok_or(Refusal::ForNow)
    }
}
