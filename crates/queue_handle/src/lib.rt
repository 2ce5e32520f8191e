//! A shared queue and a party of it in one value, so that no call takes both.
#![tactic(auto)]

ghost use Rattle.std.specs.Prelude.{◌≡◌, ◌≢◌, ◌<◌, Some, None, [], IfOk, IsErr, MatchOption, MatchResult};
ghost use Rattle.queue_steps.specs.declared.model.Call.TheVariants as call;
ghost use Rattle.queue_steps.specs.declared.model.Reply.TheVariants as reply;
ghost use Rattle.queue_steps.specs.declared.sizes.TheConstants.{MAX_CAPACITY};
ghost use Rattle.queue_steps.specs.Shares.{entire};
ghost use Rattle.std.specs.Arc.{arc_value};
ghost use Rattle.concurrent_queue.specs.Shared.{Calls, Finishes, IsPartyOf, Joins, Meets, Parts};
ghost use Rattle.concurrent_queue.specs.Tries.{TriesPush, TriesForcePush, TriesPop};
ghost use Rattle.queue_handle.specs.Handles.{IsLeft};

use concurrent_queue::{
    ConcurrentQueue, Exclusive, ForcePushError, NullTestable, Party, PopError, PushError,
    TryForcePushError, TryPopError, TryPushError,
};
use core::mem::replace_with;
use std::alloc::{AllocError, Allocator, Global};
use std::marker::Model;
use std::sync::{Arc, Wait};

/// One user of a shared queue: a party, and a share in keeping the queue, which ends with its last handle.
///
/// A contract sees the party, which names its queue.
#[derive(Drop)]
pub struct Handle<T, A: Allocator = Global> {
    queue: Arc<ConcurrentQueue<T, A>, A>,
    party: Party<T>,
    ghost of: { IsPartyOf party (arc_value queue) },
}

/// Why a queue could not be had back from a handle.
#[derive(Drop)]
pub enum Unfinished<T, A: Allocator = Global> {
    /// There are other handles. This one is unchanged.
    Shared(Handle<T, A>),
    /// There is no other handle, but a party is missing: one was dropped.
    Missing(ConcurrentQueue<T, A>, Party<T>),
}

impl<T, A: Allocator> Model for Handle<T, A> {
    ghost use Rattle.concurrent_queue.specs.Shared.{PartyView};

    ghost Value = { PartyView T };

    ghost view = { λ h. h.party };
}

impl<T: Drop, A: Allocator + Clone> Handle<T, A> {
    /// The only handle of an empty open queue of this capacity.
    ///
    /// # Errors
    ///
    /// Where there is no memory, or the capacity is above `MAX_CAPACITY`.
    pub fn bounded(alloc: A, cap: usize) -> Result<Self, AllocError>
        requires { 0 < cap }
        ensures first { IfOk result (λ h. (h.queue.cap ≡ Some cap) × (h.view ≡ record { seen = []; mine = []; share = entire })) }
        ensures limited { MAX_CAPACITY < cap → IsErr result }
    {
        let (queue, party) = ConcurrentQueue::bounded(alloc.clone()?, cap)?;
        Self::first(alloc, queue, party)
    }

    /// The only handle of an empty open queue without a capacity.
    ///
    /// # Errors
    ///
    /// Where there is no memory, or an item has 2^31 bytes or more.
    pub fn unbounded(alloc: A) -> Result<Self, AllocError>
    where
        A: NullTestable,
        ensures { IfOk result (λ h. (h.queue.cap ≡ None) × (h.view ≡ record { seen = []; mine = []; share = entire })) }
    {
        let (queue, party) = ConcurrentQueue::unbounded(alloc.clone()?)?;
        Self::first(alloc, queue, party)
    }

    /// The first handle of a new queue.
    fn first(alloc: A, queue: ConcurrentQueue<T, A>, party: Party<T>) -> Result<Self, AllocError>
        requires of { IsPartyOf party queue }
        ensures { IfOk result (λ h. h ≡ party) }
    {
        let queue = Arc::new(alloc, queue)?;
        Ok(Handle { queue, party })
    }
}

impl<T, A: Allocator> Handle<T, A> {
    /// A handle of a queue and a party of it.
    pub fn from_parts(queue: Arc<ConcurrentQueue<T, A>, A>, party: Party<T>) -> Self
        requires is_party { IsPartyOf party (arc_value queue) }
        ensures { result ≡ party }
    {
        Handle { queue, party }
    }

    /// The queue and the party.
    pub fn into_parts(self) -> (Arc<ConcurrentQueue<T, A>, A>, Party<T>)
        ensures { (result.1 ≡ self) × IsPartyOf result.1 (arc_value result.0) }
    {
        let Handle { queue, party } = self;
        (queue, party)
    }

    /// Appends `value`, as the queue's `push` does.
    ///
    /// # Errors
    ///
    /// Those of the queue's `push`, each with the value.
    pub fn push<R: Wait>(&mut self, rt: &R, value: T) -> Result<(), PushError<T>>
    where
        A: NullTestable,
        ensures { Calls self.old (call.Push value) (reply.Push result) self.new }
    {
        self.queue.push(rt, &mut self.party, value)
    }

    /// Appends `value`, and takes the front off and hands it out where the queue was full.
    ///
    /// # Errors
    ///
    /// Those of the queue's `force_push`, each with the value.
    pub fn force_push<R: Wait>(&mut self, rt: &R, value: T) -> Result<Option<T>, ForcePushError<T>>
    where
        A: NullTestable,
        ensures { Calls self.old (call.ForcePush value) (reply.ForcePush result) self.new }
    {
        self.queue.force_push(rt, &mut self.party, value)
    }

    /// Takes the front off.
    ///
    /// # Errors
    ///
    /// Those of the queue's `pop`.
    pub fn pop<R: Wait>(&mut self, rt: &R) -> Result<T, PopError>
        ensures { Calls self.old call.Pop (reply.Pop result) self.new }
    {
        self.queue.pop(rt, &mut self.party)
    }

    /// How many items there are.
    pub fn len<R: Wait>(&mut self, rt: &R) -> usize
        ensures { Calls self.old call.Len (reply.Len result) self.new }
    {
        self.queue.len(rt, &mut self.party)
    }

    /// Closes the queue, and reports whether this call did it.
    pub fn close(&mut self) -> bool
        ensures { Calls self.old call.Close (reply.Close result) self.new }
    {
        self.queue.close(&mut self.party)
    }

    /// Whether the queue is closed.
    pub fn is_closed(&mut self) -> bool
        ensures { Calls self.old call.IsClosed (reply.IsClosed result) self.new }
    {
        self.queue.is_closed(&mut self.party)
    }

    /// Whether there is no item.
    pub fn is_empty(&mut self) -> bool
        ensures { Calls self.old call.IsEmpty (reply.IsEmpty result) self.new }
    {
        self.queue.is_empty(&mut self.party)
    }

    /// Whether there are as many items as the capacity.
    pub fn is_full(&mut self) -> bool
        ensures { Calls self.old call.IsFull (reply.IsFull result) self.new }
    {
        self.queue.is_full(&mut self.party)
    }

    /// How many items there may be, or `None` where there is no limit.
    pub fn capacity(&self) -> Option<usize>
        ensures { result ≡ self.now.queue.cap }
    {
        self.queue.capacity()
    }

    /// Both handles have then seen what either has seen.
    pub fn meet(&mut self, other: &mut Self)
        requires of_this_queue { other.old.queue ≡ self.old.queue }
        ensures { Meets self.old other.old self.new other.new }
    {
        self.queue.meet(&mut self.party, &mut other.party)
    }

    /// Appends `value`, without waiting.
    ///
    /// # Errors
    ///
    /// Those of `push`, and `Busy` with the value where another call was half done: nothing has happened then.
    pub fn try_push(&mut self, value: T) -> Result<(), TryPushError<T>>
    where
        A: NullTestable,
        ensures { TriesPush self.old value result self.new }
    {
        self.queue.try_push(&mut self.party, value)
    }

    /// Appends `value` without waiting, and takes the front off and hands it out where the queue was full.
    ///
    /// # Errors
    ///
    /// Those of `force_push`, and `Busy` with the value where another call was half done: nothing has happened then.
    pub fn try_force_push(&mut self, value: T) -> Result<Option<T>, TryForcePushError<T>>
    where
        A: NullTestable,
        ensures { TriesForcePush self.old value result self.new }
    {
        self.queue.try_force_push(&mut self.party, value)
    }

    /// Takes the front off a queue with a capacity, without waiting.
    ///
    /// # Errors
    ///
    /// Those of `pop`, and `Busy` where another call was half done: nothing has happened then.
    pub fn try_pop(&mut self) -> Result<T, TryPopError>
    where
        A: NullTestable,
        requires capped { self.old.queue.cap ≢ None }
        ensures { TriesPop self.old result self.new }
    {
        self.queue.try_pop(&mut self.party)
    }
}

impl<T: Drop, A: Allocator> Handle<T, A> {
    /// Makes one more handle of this one. This one keeps what its party has done, both have seen what it has, and each has half of its share.
    ///
    /// # Errors
    ///
    /// Where the queue has as many parties, or handles, as it may: the handle is then as it was.
    pub fn split(&mut self) -> Result<Self, AllocError>
        ensures { MatchResult result (λ two. Parts self.old self.new two) (λ _. self.new ≡ self.old) }
    {
        let queue = Arc::try_clone(&self.queue)?;
        let other = replace_with(
            &mut self.party,
            &queue,
            |party, queue: &Arc<ConcurrentQueue<T, A>, A>| -> (Party<T>, Option<Party<T>>)
                requires { IsPartyOf party (arc_value queue.now) }
                ensures { MatchOption result.1 (result.0 ≡ party) (λ two. Parts party result.0 two) }
            {
                match queue.split(party) {
                    Ok((one, two)) => (one, Some(two)),
                    Err(party) => (party, None),
                }
            },
        );
        match other {
            Some(party) => Ok(Handle { queue, party }),
            None => Err(AllocError),
        }
    }

    /// Makes one of two handles of a queue: its party has seen and done what both have.
    pub fn join(self, other: Self) -> Self
        requires of_this_queue { other.queue ≡ self.queue }
        ensures { Joins self other result }
    {
        let Handle { queue, party } = self;
        let party = queue.join(party, other.party);
        Handle { queue, party }
    }

    /// Ends the sharing: the queue with its one owner, as it is after the whole history. It does so where this is the only handle and no party is missing.
    ///
    /// # Errors
    ///
    /// What there is, unchanged: the handle, or queue and party where a party is missing.
    pub fn finish(self) -> Result<Exclusive<T, A>, Unfinished<T, A>>
        ensures { MatchResult result (λ queue. Finishes self queue) (λ left. IsLeft self left) }
    {
        let Handle { queue, party } = self;
        match Arc::try_unwrap(queue) {
            Ok(queue) => match queue.finish(party) {
                Ok(queue) => Ok(queue),
                Err((queue, party)) => Err(Unfinished::Missing(queue, party)),
            },
            Err(queue) => Err(Unfinished::Shared(Handle { queue, party })),
        }
    }
}
