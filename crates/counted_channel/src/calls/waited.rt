//! The queue of a channel, with those that wait for what its calls do. A call that others wait for owes them a notify, and one that looked in vain says so to who waits.
//!
//! Nobody else makes an [`Items`] or a [`Room`]. So no end sleeps that did not look with a ticket in hand, nobody is notified before the call that wakes, and no such call forgets it. What is
//! owed names the queue's own waiters, so no other is woken in their place.
ghost use Rattle.std.specs.Prelude.{◌≡◌, Some, Err, IfSome, MatchResult};
ghost use Rattle.queue_steps.specs.declared.errors.PushError.TheVariants as push;
ghost use Rattle.std.specs.Arc.{arc_value};
ghost use Rattle.queue_steps.specs.declared.model.Call.TheVariants as call;
ghost use Rattle.queue_steps.specs.declared.model.Reply.TheVariants as reply;
ghost use Rattle.queue_steps.specs.Shares.{IsEntire};
ghost use Rattle.concurrent_queue.specs.Shared.{Calls, IsPartyOf, Parts, Joins, Finishes};
ghost use Rattle.counted_channel.specs.QueueCalls.Calls.{HasSeenClosed, pushed, force_pushed, popped};
ghost use Rattle.counted_channel.specs.QueueCalls.Looks.{FullKeepsTicket, EmptyKeepsTicket};
ghost use Rattle.counted_channel.specs.QueueCalls.Waiting.{list_of, list_for_one, list_for_all};

use crate::calls::awaited::Awaited;
use crate::calls::waiters::{OwesAll, OwesOne};
use concurrent_queue::{
    ConcurrentQueue, Exclusive, ForcePushError, NullTestable, Party, PopError, PushError,
};
use event_count::{Look, Patience, Vain};
use std::alloc::{Allocator, Global};
use std::marker::Model;
use std::sync::{Arc, Wait};
use waker_list::WakerList;

/// What receivers wait for.
#[derive(Drop)]
pub struct Items {
    pub(crate) made: (),
}

/// What senders wait for.
#[derive(Drop)]
pub struct Room {
    pub(crate) made: (),
}

/// The queue is closed, and neither those that wait for items nor those that wait for room were notified yet.
pub struct OwesEnd<'a> {
    items: OwesAll<'a, Items>,
    room: OwesAll<'a, Room>,
}

impl OwesEnd<'_> {
    /// Wakes every end that sleeps.
    #[inline]
    pub fn notify(self) {
        let OwesEnd { items, room } = self;
        items.notify();
        room.notify();
    }
}

/// The answer of a push.
pub enum Pushed<'a, T> {
    Done(OwesOne<'a, Items>),
    Full(T, Vain<'a, Room>),
    Closed(T, OwesEnd<'a>),
    NoMemory(T),
}

/// The answer of a push by force, with the item that it displaced.
pub enum ForcePushed<'a, T> {
    Done(Option<T>, OwesOne<'a, Items>),
    Closed(T, OwesEnd<'a>),
    NoMemory(T),
}

/// The answer of a pop.
pub enum Popped<'a, T> {
    Item(T, OwesOne<'a, Room>),
    Empty(Vain<'a, Items>),
    Closed,
}

/// A queue at which ends wait. A contract sees which queue it is.
#[derive(Drop)]
pub struct WaitedQueue<T, A: Allocator = Global> {
    pub(crate) queue: ConcurrentQueue<T, A>,
    awaited: Awaited,
}

impl<T, A: Allocator> Model for WaitedQueue<T, A> {
    ghost use Rattle.counted_channel.specs.QueueCalls.Waiting.{WaitedId, list_of};

    ghost Value = { WaitedId };

    ghost view = { λ q. record { queue = q.queue; receivers = list_of q.awaited.items; senders = list_of q.awaited.room } };
}

impl<T, A: Allocator> WaitedQueue<T, A> {
    pub(crate) fn new(queue: ConcurrentQueue<T, A>, awaited: Awaited) -> WaitedQueue<T, A>
        ensures { (result.queue ≡ queue) × (result.receivers ≡ list_of awaited.items) × (result.senders ≡ list_of awaited.room) }
    {
        WaitedQueue { queue, awaited }
    }

    /// How a receiver waits for an item.
    #[inline]
    pub fn patience_for_items(&self) -> Patience<'_, Items> {
        self.awaited.items.patience()
    }

    /// How a sender waits for room.
    #[inline]
    pub fn patience_for_room(&self) -> Patience<'_, Room> {
        self.awaited.room.patience()
    }

    /// The list of receivers that wait in futures, where they may, and it may have one more owner.
    pub fn list_of_receivers(&self) -> Option<Arc<WakerList<Items>>>
        ensures { IfSome result (λ l. self.now.receivers ≡ Some (arc_value l).source.id) }
    {
        self.awaited.items.list()
    }

    /// The list of senders that wait in futures, where they may, and it may have one more owner.
    pub fn list_of_senders(&self) -> Option<Arc<WakerList<Room>>>
        ensures { IfSome result (λ l. self.now.senders ≡ Some (arc_value l).source.id) }
    {
        self.awaited.room.list()
    }

    /// What is owed to receivers where an item was pushed.
    #[inline(always)]
    pub(crate) fn owes_item(&self) -> OwesOne<'_, Items>
        ensures { list_for_one result ≡ self.now.receivers }
    {
        self.awaited
            .items
            .owe_one(Items { made: () }, Items { made: () })
    }

    /// What is owed to senders where an item was popped.
    #[inline(always)]
    pub(crate) fn owes_room(&self) -> OwesOne<'_, Room>
        ensures { list_for_one result ≡ self.now.senders }
    {
        self.awaited
            .room
            .owe_one(Room { made: () }, Room { made: () })
    }

    /// What is owed to all where a party has seen the queue closed.
    #[inline(always)]
    pub(crate) fn owes_end(&self, party: &Party<T>) -> OwesEnd<'_>
        requires seen { HasSeenClosed party.now }
        ensures { (list_for_all result.items ≡ self.now.receivers) × (list_for_all result.room ≡ self.now.senders) }
    {
        let _ = party;
        OwesEnd {
            items: self
                .awaited
                .items
                .owe_all(Items { made: () }, Items { made: () }),
            room: self
                .awaited
                .room
                .owe_all(Room { made: () }, Room { made: () }),
        }
    }

    /// Pushes. One that is answered `Closed` may have closed the queue.
    #[inline(always)]
    pub fn push<'a, R: Wait>(
        &'a self,
        rt: &R,
        party: &mut Party<T>,
        value: T,
        look: Look<'a, Room>,
    ) -> Pushed<'a, T>
    where
        A: NullTestable,
        requires { IsPartyOf party.old self.now.queue }
        ensures called { Calls party.old (call.Push value) (pushed result) party.new }
        ensures ticket { FullKeepsTicket look.entry result }
    {
        let answer = self.queue.push(rt, party, value);
        self.after_push(party, answer, look)
    }

    /// What a push has come to that was answered so, with this look in hand.
    #[inline(always)]
    pub(crate) fn after_push<'a>(
        &'a self,
        party: &Party<T>,
        answer: Result<(), PushError<T>>,
        look: Look<'a, Room>,
    ) -> Pushed<'a, T>
        requires closed { (back : T) → answer ≡ Err (push.Closed back) → HasSeenClosed party.now }
        ensures answer { pushed result ≡ reply.Push answer }
        ensures ticket { FullKeepsTicket look.entry result }
    {
        match answer {
            Ok(()) => {
                look.found();
                Pushed::Done(self.owes_item())
            }
            Err(PushError::Full(back)) => Pushed::Full(back, look.in_vain(Room { made: () })),
            Err(PushError::Closed(back)) => {
                look.found();
                Pushed::Closed(back, self.owes_end(party))
            }
            Err(PushError::NoMemory(back)) => {
                look.found();
                Pushed::NoMemory(back)
            }
        }
    }

    /// Pushes by force. One that is answered `Closed` may have closed the queue.
    #[inline(always)]
    pub fn force_push<R: Wait>(&self, rt: &R, party: &mut Party<T>, value: T) -> ForcePushed<'_, T>
    where
        A: NullTestable,
        requires { IsPartyOf party.old self.now.queue }
        ensures { Calls party.old (call.ForcePush value) (force_pushed result) party.new }
    {
        match self.queue.force_push(rt, party, value) {
            Ok(displaced) => ForcePushed::Done(displaced, self.owes_item()),
            Err(ForcePushError::Closed(back)) => ForcePushed::Closed(back, self.owes_end(party)),
            Err(ForcePushError::NoMemory(back)) => ForcePushed::NoMemory(back),
        }
    }

    /// Pops.
    #[inline(always)]
    pub fn pop<'a, R: Wait>(
        &'a self,
        rt: &R,
        party: &mut Party<T>,
        look: Look<'a, Items>,
    ) -> Popped<'a, T>
        requires { IsPartyOf party.old self.now.queue }
        ensures called { Calls party.old call.Pop (popped result) party.new }
        ensures ticket { EmptyKeepsTicket look.entry result }
    {
        match self.queue.pop(rt, party) {
            Ok(item) => {
                look.found();
                Popped::Item(item, self.owes_room())
            }
            Err(PopError::Empty) => Popped::Empty(look.in_vain(Items { made: () })),
            Err(PopError::Closed) => {
                look.found();
                Popped::Closed
            }
        }
    }

    /// Closes the queue, and gives whether it was open.
    pub fn close(&self, party: &mut Party<T>) -> (bool, OwesEnd<'_>)
        requires { IsPartyOf party.old self.now.queue }
        ensures { Calls party.old call.Close (reply.Close result.0) party.new }
    {
        let closed = self.queue.close(party);
        (closed, self.owes_end(party))
    }

    pub fn is_closed(&self, party: &mut Party<T>) -> bool
        requires { IsPartyOf party.old self.now.queue }
        ensures { Calls party.old call.IsClosed (reply.IsClosed result) party.new }
    {
        self.queue.is_closed(party)
    }

    pub fn len<R: Wait>(&self, rt: &R, party: &mut Party<T>) -> usize
        requires { IsPartyOf party.old self.now.queue }
        ensures { Calls party.old call.Len (reply.Len result) party.new }
    {
        self.queue.len(rt, party)
    }

    pub fn is_empty(&self, party: &mut Party<T>) -> bool
        requires { IsPartyOf party.old self.now.queue }
        ensures { Calls party.old call.IsEmpty (reply.IsEmpty result) party.new }
    {
        self.queue.is_empty(party)
    }

    pub fn is_full(&self, party: &mut Party<T>) -> bool
        requires { IsPartyOf party.old self.now.queue }
        ensures { Calls party.old call.IsFull (reply.IsFull result) party.new }
    {
        self.queue.is_full(party)
    }

    pub fn capacity(&self) -> Option<usize>
        ensures { result ≡ self.now.queue.cap }
    {
        self.queue.capacity()
    }

    pub fn split(&self, party: Party<T>) -> Result<(Party<T>, Party<T>), Party<T>>
        requires { IsPartyOf party self.now.queue }
        ensures { MatchResult result (λ r. Parts party r.0 r.1) (λ p. (p ≡ party) × ¬ (IsEntire party.view.share)) }
    {
        self.queue.split(party)
    }

    pub fn join(&self, first: Party<T>, second: Party<T>) -> Party<T>
        requires { IsPartyOf first self.now.queue × IsPartyOf second self.now.queue }
        ensures { Joins first second result }
    {
        self.queue.join(first, second)
    }

    /// Ends the queue, and hands on what is left in it.
    ///
    /// # Errors
    ///
    /// The queue and the party, both unchanged, where a party has not been joined back.
    pub fn finish(self, party: Party<T>) -> Result<Exclusive<T, A>, (Self, Party<T>)>
        requires { IsPartyOf party self.queue }
        ensures { MatchResult result (λ e. Finishes party e) (λ r. (r.0 ≡ self) × (r.1 ≡ party) × ¬ (IsEntire party.view.share)) }
    {
        let WaitedQueue { queue, awaited } = self;
        match queue.finish(party) {
            Ok(left) => Ok(left),
            Err((queue, party)) => Err((WaitedQueue { queue, awaited }, party)),
        }
    }
}
