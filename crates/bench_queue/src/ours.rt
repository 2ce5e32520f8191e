//! This repository's queues as the loads have them: a lane of one thread, and a seat of each thread.
ghost use Rattle.std.specs.Prelude.{◌<◌, IfOk};
ghost use Rattle.std.specs.Option.{IfSome};
ghost use Rattle.queue_steps.specs.Shares.{IsEntire};
ghost use Rattle.concurrent_queue.specs.Shared.{IsPartyOf};

use crate::crew::{Refusal, Seat};
use crate::pairs::Lane;
use concurrent_queue::{ConcurrentQueue, Exclusive, Party, PopError, PushError};
use std::alloc::{AllocError, Global};
use std::sync::Wait;

/// A queue with one owner.
#[derive(Drop)]
pub struct Owned<T>(Exclusive<T>);

impl<T> Owned<T> {
    /// An empty queue with this capacity, if it has one.
    pub fn open(alloc: Global, capacity: Option<usize>) -> Result<Self, AllocError>
        requires { IfSome capacity (λ cap. 0 < cap) }
    {
        match capacity {
            Some(cap) => Ok(Owned(Exclusive::bounded(alloc, cap)?)),
            None => Ok(Owned(Exclusive::unbounded(alloc))),
        }
    }
}

impl<T: Drop> Lane<T> for Owned<T> {
    #[inline(always)]
    fn put(&mut self, item: T) {
        let _ = self.0.push(item);
    }

    #[inline(always)]
    fn take(&mut self) -> Option<T> {
        self.0.pop().ok()
    }

    fn fill(&mut self, item: T) {
        let _ = self.0.force_push(item);
    }
}

/// A shared queue with the only party that there is.
#[derive(Drop)]
pub struct Alone<'a, R: Wait, T> {
    rt: &'a R,
    queue: ConcurrentQueue<T>,
    party: Party<T>,
    ghost its: { IsPartyOf party queue },
    ghost only: { IsEntire party.view.share },
}

impl<'a, R: Wait, T> Alone<'a, R, T> {
    /// An empty queue with this capacity, if it has one.
    pub fn open(alloc: Global, rt: &'a R, capacity: Option<usize>) -> Result<Self, AllocError>
        requires { IfSome capacity (λ cap. 0 < cap) }
    {
        let (queue, party) = open_shared(alloc, capacity)?;
        Ok(Alone { rt, queue, party })
    }

    /// The queue, once its sharing has ended.
    pub fn end(self) -> Owned<T> {
        let Alone {
            rt: _,
            queue,
            party,
        } = self;
        match queue.finish(party) {
            Ok(left) => Owned(left),
            Err(_) => unreachable!(),
        }
    }
}

impl<'a, R: Wait, T: Drop> Lane<T> for Alone<'a, R, T> {
    #[inline(always)]
    fn put(&mut self, item: T) {
        let _ = self.queue.push(self.rt, &mut self.party, item);
    }

    #[inline(always)]
    fn take(&mut self) -> Option<T> {
        self.queue.pop(self.rt, &mut self.party).ok()
    }

    fn fill(&mut self, item: T) {
        let _ = self.queue.force_push(self.rt, &mut self.party, item);
    }
}

/// A shared queue as one of its threads has it, and its party.
#[derive(Drop)]
pub struct OfParty<'a> {
    pub queue: &'a ConcurrentQueue<u64>,
    pub party: Party<u64>,
    ghost its: { IsPartyOf party queue.now },
}

impl<'a> Seat for OfParty<'a> {
    fn part(self) -> Result<(OfParty<'a>, OfParty<'a>), AllocError> {
        let OfParty { queue, party } = self;
        match queue.split(party) {
            Ok((left, theirs)) => Ok((
                OfParty { queue, party: left },
                OfParty {
                    queue,
                    party: theirs,
                },
            )),
            Err(_) => Err(AllocError),
        }
    }

    fn put<R: Wait>(&mut self, rt: &R, number: u64) -> Result<(), Refusal> {
        match self.queue.push(rt, &mut self.party, number) {
            Ok(()) => Ok(()),
            Err(PushError::Full(_)) => Err(Refusal::ForNow),
            Err(PushError::Closed(_) | PushError::NoMemory(_)) => {
                self.queue.close(&mut self.party);
                Err(Refusal::ForGood)
            }
        }
    }

    fn take<R: Wait>(&mut self, rt: &R) -> Result<u64, Refusal> {
        match self.queue.pop(rt, &mut self.party) {
            Ok(number) => Ok(number),
            Err(PopError::Empty) => Err(Refusal::ForNow),
            Err(PopError::Closed) => Err(Refusal::ForGood),
        }
    }
}

/// An empty shared queue with this capacity, if it has one, and its only party.
pub fn open_shared<T>(
    alloc: Global,
    capacity: Option<usize>,
) -> Result<(ConcurrentQueue<T>, Party<T>), AllocError>
    requires { IfSome capacity (λ cap. 0 < cap) }
    ensures { IfOk result (λ r. IsPartyOf r.1 r.0 × IsEntire r.1.view.share) }
{
    match capacity {
        Some(cap) => ConcurrentQueue::bounded(alloc, cap),
        None => ConcurrentQueue::unbounded(alloc),
    }
}
