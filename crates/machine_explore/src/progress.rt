//! How far a party is.
ghost use Rattle.std.specs.Prelude.{◌≡◌, ℕ, true, IfOk, OnOk};
ghost use Rattle.machine_explore.specs.Moves.{advanced};
ghost use Rattle.machine_explore.specs.Positions.{Progress, no_progress};

use machine_replay::types::{Event, Told};
use queue_steps::errors::{ForcePushError, PopError, PushError};
use queue_steps::model::Reply;
use std::alloc::{AllocError, Allocator};
use std::hash::Hasher;
use std::marker::Model;

/// How far a party is: how many of its calls it has begun, and the replies so far.
#[derive(Drop)]
pub struct PartyProgress<A: Allocator> {
    begun: usize,
    replies: Vec<Reply<u64>, A>,
}

impl<A: Allocator> Model for PartyProgress<A> {
    ghost Value = { Progress ℕ };

    ghost view = { λ p. record { begun = p.begun; replies = p.replies.items } };
}

impl<A: Allocator> PartyProgress<A> {
    /// That of a party that has begun no call.
    pub(crate) fn new(alloc: A) -> Self
        ensures { result ≡ no_progress }
    {
        PartyProgress {
            begun: 0,
            replies: Vec::new(alloc),
        }
    }

    /// How many of its calls the party has begun.
    pub fn begun(&self) -> usize
        ensures { result ≡ self.now.begun }
    {
        self.begun
    }

    /// The replies that it has got, in their order.
    pub fn replies(&self) -> &[Reply<u64>]
        ensures { result.now ≡ self.now.replies }
    {
        self.replies.as_slice()
    }

    /// A copy.
    ///
    /// # Errors
    ///
    /// Where there is no memory.
    pub(crate) fn copy(&self, alloc: A) -> Result<PartyProgress<A>, AllocError>
        ensures { IfOk result (λ p. p ≡ self.now) }
    {
        let replies = Vec::from_slice(alloc, self.replies())?;
        Ok(PartyProgress {
            begun: self.begun,
            replies,
        })
    }

    /// Notes an event of the party, of which this was told.
    ///
    /// # Errors
    ///
    /// Where there is no memory, or 2^64 - 1 calls were begun.
    pub(crate) fn advance(&mut self, event: Event<u64>, told: Told<u64>) -> Result<(), AllocError>
        ensures { OnOk result (self.new ≡ advanced self.old event told) }
    {
        let Told::Ran(_, reply) = told else {
            return Ok(());
        };
        if let Event::Begin(_, _) = event {
            if self.begun == usize::MAX {
                return Err(AllocError);
            }
            self.begun += 1;
        }
        if let Some(reply) = reply {
            self.replies.push(reply)?;
        }
        Ok(())
    }

    /// Feeds a hasher with it.
    pub(crate) fn feed<H: Hasher>(&self, state: &mut H) {
        state.write_usize(self.begun);
        for reply in self.replies.as_slice() {
            state.write_u64(mark_of(*reply));
        }
    }

    /// Whether it is as far as the other, with the same replies.
    pub(crate) fn is_same(&self, other: &PartyProgress<A>) -> bool
        ensures { result ≡ true → self.now ≡ other.now }
    {
        self.begun == other.begun && are_same(&self.replies, &other.replies)
    }
}

/// Whether these are the same replies.
pub(crate) fn are_same(replies: &[Reply<u64>], others: &[Reply<u64>]) -> bool
    ensures { result ≡ true → replies.now ≡ others.now }
{
    if replies.len() != others.len() {
        return false;
    }
    for (index, reply) in replies.iter().enumerate() {
        if *reply != others[index] {
            return false;
        }
    }
    true
}

// A number by which a hash tells replies of one call from each other.
fn mark_of(reply: Reply<u64>) -> u64 {
    match reply {
        Reply::Push(Ok(())) | Reply::ForcePush(Ok(None)) => 0,
        Reply::Push(Err(PushError::Full(_))) => 1,
        Reply::Push(Err(PushError::Closed(_))) | Reply::ForcePush(Err(ForcePushError::Closed(_))) =>
            2,
        Reply::Push(Err(PushError::NoMemory(_)))
        | Reply::ForcePush(Err(ForcePushError::NoMemory(_))) => 3,
        Reply::Pop(Err(PopError::Empty)) => 4,
        Reply::Pop(Err(PopError::Closed)) => 5,
        Reply::ForcePush(Ok(Some(item))) | Reply::Pop(Ok(item)) => item.wrapping_add(6),
        Reply::Close(answer)
        | Reply::IsClosed(answer)
        | Reply::IsEmpty(answer)
        | Reply::IsFull(answer) => answer as u64,
        Reply::Len(count) | Reply::Capacity(Some(count)) => count as u64,
        Reply::Capacity(None) => u64::MAX,
    }
}
