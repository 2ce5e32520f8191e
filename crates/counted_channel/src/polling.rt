//! Calls of ends in futures. None waits, and each is made with a look in hand.
ghost use Rattle.std.specs.Prelude.{◌≡◌, Some, true, false, IfSome, IfOk, MatchResult};
ghost use Rattle.std.specs.Arc.{arc_value};
ghost use Rattle.queue_steps.specs.Shares.{IsEntire};
ghost use Rattle.counted_channel.specs.Channel.{IsEndOf};
ghost use Rattle.counted_channel.specs.Polling.{PollsRecv, PollsSend, PopEnds, EndsAfterPop, RecvKeeps, SendKeeps};

use crate::calls::{Disconnected, Items, PollState, PolledPop, PolledPush, Room, SendError};
use crate::counting::EndSeat;
use crate::ends::Channel;
use crate::sides::{Receiver, Sender};
use concurrent_queue::one_heap::OneHeap;
use concurrent_queue::{NullTestable, Party};
use std::alloc::{Allocator, Global};
use std::marker::Model;
use std::sync::Arc;
use std::thread::yield_now;
use waker_list::{Look, Missed, Place, WakerList};

/// A receiver in futures. It may be in a pop that has taken its item, which is not written yet.
///
/// A contract sees the end, as it was before that pop, and whether it is in one. One that is dropped was not ended.
#[derive(Drop)]
pub struct PollingReceiver<T, A: Allocator = Global> {
    at: PollState<T, A>,
    place: EndSeat,
}

impl<T, A: Allocator> Model for PollingReceiver<T, A> {
    ghost use Rattle.std.specs.Prelude.{◌≡◌};
    ghost use Rattle.queue_steps.specs.declared.model.Call.TheVariants as call;
    ghost use Rattle.counted_channel.specs.QueueCalls.Polled.{party_at, call_at, is_in_pop};
    ghost use Rattle.counted_channel.specs.Channel.{end_at};
    ghost use Rattle.counted_channel.specs.Polling.{PollingEnd};
    ghost use Rattle.counted_channel.specs.Counting.{IsEndSeat};

    ghost Value = { PollingEnd T };

    ghost view = { λ r. record { end = end_at 1 (party_at r.at) r.place.table_id r.place.me.0; in_pop = is_in_pop r.at } };

    ghost invariant = { λ r. IsEndSeat 1 r.place.me × (call_at r.at ≡ call.Pop) };
}

/// What a receive in a future has come to.
pub enum PolledRecv<'a, T> {
    /// It has its answer.
    Answered(Result<T, Disconnected>, Place<'a, Items>),
    /// The channel was open and empty.
    Empty(Missed<'a, Items>),
    /// It has taken an item, which is not written yet.
    Taken(Place<'a, Items>),
    /// Another call was half done.
    Busy(Look<'a, Items>),
}

/// What a send in a future has come to.
pub enum PolledSend<'a, T> {
    /// It has its answer.
    Answered(Result<(), SendError<T>>, Place<'a, Room>),
    /// The channel was full.
    Full(T, Missed<'a, Room>),
    /// Another call was half done.
    Busy(T, Look<'a, Room>),
}

impl<T> Receiver<T> {
    /// Lets it receive in futures.
    pub fn into_polling<A: Allocator>(self) -> PollingReceiver<T, A>
        ensures { (result.end ≡ self) × (result.in_pop ≡ false) }
    {
        PollingReceiver {
            at: PollState::Between(self.party),
            place: self.place,
        }
    }
}

impl<T, A: Allocator> PollingReceiver<T, A> {
    /// Whether it is in a pop that has taken its item, which is not written yet.
    pub fn is_in_pop(&self) -> bool
        ensures { result ≡ self.now.in_pop }
    {
        matches!(self.at, PollState::Popping(_))
    }

    /// Lets it receive in threads.
    ///
    /// # Errors
    ///
    /// The receiver, where it is in a pop.
    pub fn into_receiver(self) -> Result<Receiver<T>, Self>
        ensures { MatchResult result (λ r. (r ≡ self.end) × (self.in_pop ≡ false)) (λ r. (r ≡ self) × (self.in_pop ≡ true)) }
    {
        let PollingReceiver { at, place } = self;
        match at {
            PollState::Between(party) => Ok(Receiver::of(party, place)),
            popping => Err(PollingReceiver { at: popping, place }),
        }
    }
}

impl<T, A: Allocator> Channel<T, A> {
    /// The list of receivers that wait in futures, where the channel has one, and it may have one more owner.
    pub fn list_of_receivers(&self) -> Option<Arc<WakerList<Items>>>
        ensures { IfSome result (λ l. self.now.receivers ≡ Some (arc_value l).source.id) }
    {
        self.queue.list_of_receivers()
    }

    /// The list of senders that wait in futures, where the channel has one, and it may have one more owner.
    pub fn list_of_senders(&self) -> Option<Arc<WakerList<Room>>>
        ensures { IfSome result (λ l. self.now.senders ≡ Some (arc_value l).source.id) }
    {
        self.queue.list_of_senders()
    }
}

impl<T, A: NullTestable + OneHeap> Channel<T, A> {
    /// Takes the front off, where that needs no waiting.
    pub fn poll_recv<'a>(
        &self,
        receiver: &mut PollingReceiver<T, A>,
        look: Look<'a, Items>,
    ) -> PolledRecv<'a, T>
        requires is_end { IsEndOf receiver.old.end self.now }
        ensures polls { PollsRecv receiver.old result receiver.new }
        ensures keeps { RecvKeeps look.entry result }
    {
        match self.queue.poll_pop(&mut receiver.at, look) {
            PolledPop::Item(item, place, owed) => {
                owed.notify();
                PolledRecv::Answered(Ok(item), place)
            }
            PolledPop::Closed(place) => PolledRecv::Answered(Err(Disconnected), place),
            PolledPop::Empty(missed) => PolledRecv::Empty(missed),
            PolledPop::Taken(place) => PolledRecv::Taken(place),
            PolledPop::Busy(look) => PolledRecv::Busy(look),
        }
    }

    /// Ends a receiver in futures, and gives its party and whether it was the last. If it is in a pop, that ends first, and its item is dropped. The last receiver closes the queue.
    ///
    /// # Errors
    ///
    /// The receiver, unchanged, where the item of its pop was not written at 2^64 - 1 tries.
    pub fn end_polling(
        &self,
        receiver: PollingReceiver<T, A>,
    ) -> Result<(Party<T>, bool), PollingReceiver<T, A>>
    where
        T: Drop,
        requires is_end { IsEndOf receiver.end self.now }
        ensures ended { MatchResult result (λ r. EndsAfterPop receiver r.0 r.1) (λ same. (same ≡ receiver) × (same.in_pop ≡ true)) }
        ensures last { IfOk result (λ r. IsEntire receiver.end.stake → r.1 ≡ true) }
    {
        let mut receiver = receiver;
        for _ in 0..u64::MAX {
            if !receiver.is_in_pop() {
                break;
            }
            self.settle(&mut receiver);
            yield_now();
        }
        let receiver = receiver.into_receiver()?;
        Ok(self.end_receiver(receiver))
    }

    /// Goes on with the pop of a receiver that is to end, and drops its item.
    fn settle(&self, receiver: &mut PollingReceiver<T, A>)
    where
        T: Drop,
        requires is_end { IsEndOf receiver.old.end self.now }
        requires in_pop { receiver.old.in_pop ≡ true }
        ensures of { IsEndOf receiver.new.end self.now }
        ensures ends { PopEnds receiver.old receiver.new }
    {
        if let Some((_, owed)) = self.queue.settle(&mut receiver.at) {
            owed.notify();
        }
    }
}

impl<T, A: NullTestable> Channel<T, A> {
    /// Appends `value`, where that needs no waiting.
    pub fn poll_send<'a>(
        &self,
        sender: &mut Sender<T>,
        value: T,
        look: Look<'a, Room>,
    ) -> PolledSend<'a, T>
        requires is_end { IsEndOf sender.old self.now }
        ensures polls { PollsSend sender.old value result sender.new }
        ensures keeps { SendKeeps look.entry result }
    {
        match self.queue.poll_push(&mut sender.party, value, look) {
            PolledPush::Done(place, owed) => {
                owed.notify();
                PolledSend::Answered(Ok(()), place)
            }
            PolledPush::Closed(back, place, owed) => {
                owed.notify();
                PolledSend::Answered(Err(SendError::Closed(back)), place)
            }
            PolledPush::NoMemory(back, place) => {
                PolledSend::Answered(Err(SendError::NoMemory(back)), place)
            }
            PolledPush::Full(back, missed) => PolledSend::Full(back, missed),
            PolledPush::Busy(back, look) => PolledSend::Busy(back, look),
        }
    }
}
