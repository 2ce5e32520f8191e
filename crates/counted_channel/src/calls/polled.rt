//! Calls of the queue that never wait, each made by a future with a look in hand.
ghost use Rattle.std.specs.Prelude.{◌≡◌};
ghost use Rattle.queue_steps.specs.declared.model.Call.TheVariants as call;
ghost use Rattle.queue_steps.specs.declared.model.Reply.TheVariants as reply;
ghost use Rattle.concurrent_queue.specs.Comes.{Comes};
ghost use Rattle.concurrent_queue.specs.Shared.{PartyView, IsPartyOf, Calls};
ghost use Rattle.counted_channel.specs.QueueCalls.Polled.{IsStateOf, party_at, Attempts, PollsPop, PollsPush, PopGoesOn, PopKeeps, PushKeeps};

use crate::calls::waited::{Items, OwesEnd, Room, WaitedQueue};
use crate::calls::waiters::OwesOne;
use concurrent_queue::model::{Call, Reply};
use concurrent_queue::one_heap::OneHeap;
use concurrent_queue::{NullTestable, Outcome, Party, Pending, PopError, TryPushError};
use core::mem::replace_with;
use std::alloc::{Allocator, Global};
use waker_list::{Look, Missed, Place};

/// Where the party of a receiver in futures is.
#[derive(Drop)]
pub enum PollState<T, A: Allocator = Global> {
    /// Between two calls.
    Between(Party<T>),
    /// In a pop that has taken its item, which is not written yet.
    Popping(Pending<T, A>),
}

/// What one try of a pop has come to.
#[derive(Drop)]
enum Attempt<T> {
    /// It has its answer.
    Answered(Result<T, PopError>),
    /// Another call was half done, and the pop has done nothing.
    Busy,
    /// It has taken an item, which is not written yet.
    Taken,
}

/// The answer of a pop that a future made.
pub enum PolledPop<'a, 'q, T> {
    Item(T, Place<'a, Items>, OwesOne<'q, Room>),
    Closed(Place<'a, Items>),
    Empty(Missed<'a, Items>),
    /// It has taken an item, which is not written yet: the look has found.
    Taken(Place<'a, Items>),
    /// Another call was half done, and the pop has done nothing.
    Busy(Look<'a, Items>),
}

/// The answer of a push that a future made.
pub enum PolledPush<'a, 'q, T> {
    Done(Place<'a, Room>, OwesOne<'q, Items>),
    Closed(T, Place<'a, Room>, OwesEnd<'q>),
    NoMemory(T, Place<'a, Room>),
    Full(T, Missed<'a, Room>),
    /// Another call was half done, and the push has done nothing.
    Busy(T, Look<'a, Room>),
}

/// The answer of a pop.
fn answer_of<T>(answer: Reply<T>) -> Result<T, PopError>
    requires { (v w : PartyView T) × Calls v call.Pop answer w }
    ensures { reply.Pop result ≡ answer }
{
    match answer {
        Reply::Pop(popped) => popped,
        _ => unreachable!(),
    }
}

impl<T, A: NullTestable + OneHeap> WaitedQueue<T, A> {
    /// Begins a pop, or takes it up again.
    fn begin_pop(&self, at: PollState<T, A>) -> Outcome<T, A>
        requires { IsStateOf at self.now.queue }
        ensures { Comes (party_at at) call.Pop result }
    {
        match at {
            PollState::Between(party) => self.queue.begin(party, Call::Pop),
            PollState::Popping(pending) => self.queue.resume(pending),
        }
    }

    /// One try of a pop. It is given up where it meets another call half done, unless it has its item.
    fn attempt_pop(&self, at: PollState<T, A>) -> (PollState<T, A>, Attempt<T>)
        requires { IsStateOf at self.now.queue }
        ensures of { IsStateOf result.0 self.now.queue }
        ensures attempts { Attempts (party_at at) result.1 result.0 }
    {
        match self.begin_pop(at) {
            Outcome::Pending(pending) => match self.queue.give_up(pending) {
                Ok((party, value)) => {
                    let None = value else { unreachable!() };
                    (PollState::Between(party), Attempt::Busy)
                }
                Err(pending) => (PollState::Popping(pending), Attempt::Taken),
            },
            Outcome::Done(party, answer) => {
                let popped = answer_of(answer);
                (PollState::Between(party), Attempt::Answered(popped))
            }
        }
    }

    /// One try of a pop, of the party that is there.
    fn attempt_at(&self, at: &mut PollState<T, A>) -> Attempt<T>
        requires { IsStateOf at.old self.now.queue }
        ensures of { IsStateOf at.new self.now.queue }
        ensures attempts { Attempts (party_at at.old) result at.new }
    {
        replace_with(
            at,
            self,
            |at, queue: &WaitedQueue<T, A>| -> (PollState<T, A>, Attempt<T>)
                requires { IsStateOf at queue.now.queue }
                ensures of { IsStateOf result.0 queue.now.queue }
                ensures attempts { Attempts (party_at at) result.1 result.0 }
            { queue.attempt_pop(at) },
        )
    }

    /// Pops, or goes on with the pop that has taken its item.
    pub fn poll_pop<'a, 'q>(
        &'q self,
        at: &mut PollState<T, A>,
        look: Look<'a, Items>,
    ) -> PolledPop<'a, 'q, T>
        requires { IsStateOf at.old self.now.queue }
        ensures of { IsStateOf at.new self.now.queue }
        ensures polls { PollsPop (party_at at.old) result at.new }
        ensures keeps { PopKeeps look.entry result }
    {
        match self.attempt_at(at) {
            Attempt::Answered(Ok(item)) => {
                let place = look.found(Items { made: () });
                PolledPop::Item(item, place, self.owes_room())
            }
            Attempt::Answered(Err(PopError::Empty)) => {
                PolledPop::Empty(look.in_vain(Items { made: () }))
            }
            Attempt::Answered(Err(PopError::Closed)) => {
                PolledPop::Closed(look.found(Items { made: () }))
            }
            Attempt::Taken => PolledPop::Taken(look.found(Items { made: () })),
            Attempt::Busy => PolledPop::Busy(look),
        }
    }

    /// Goes on with the pop that has taken its item, if there is one. Gives the item once it is written.
    pub fn settle(&self, at: &mut PollState<T, A>) -> Option<(T, OwesOne<'_, Room>)>
        requires { IsStateOf at.old self.now.queue }
        ensures of { IsStateOf at.new self.now.queue }
        ensures goes_on { PopGoesOn (party_at at.old) at.new }
    {
        let PollState::Popping(_) = at else {
            return None;
        };
        match self.attempt_at(at) {
            Attempt::Answered(Ok(item)) => Some((item, self.owes_room())),
            Attempt::Answered(Err(_)) | Attempt::Taken | Attempt::Busy => None,
        }
    }
}

impl<T, A: NullTestable> WaitedQueue<T, A> {
    /// Pushes. One that is answered `Closed` may have closed the queue.
    pub fn poll_push<'a, 'q>(
        &'q self,
        party: &mut Party<T>,
        value: T,
        look: Look<'a, Room>,
    ) -> PolledPush<'a, 'q, T>
        requires { IsPartyOf party.old self.now.queue }
        ensures polls { PollsPush party.old value result party.new }
        ensures keeps { PushKeeps look.entry result }
    {
        match self.queue.try_push(party, value) {
            Ok(()) => {
                let place = look.found(Room { made: () });
                PolledPush::Done(place, self.owes_item())
            }
            Err(TryPushError::Full(back)) => {
                PolledPush::Full(back, look.in_vain(Room { made: () }))
            }
            Err(TryPushError::Closed(back)) => {
                let place = look.found(Room { made: () });
                PolledPush::Closed(back, place, self.owes_end(party))
            }
            Err(TryPushError::NoMemory(back)) => {
                PolledPush::NoMemory(back, look.found(Room { made: () }))
            }
            Err(TryPushError::Busy(back)) => PolledPush::Busy(back, look),
        }
    }
}
