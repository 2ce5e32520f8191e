//! Channels: senders and receivers of a queue, of which the last of either side closes it.
ghost use Rattle.std.specs.Prelude.{◌≡◌, true, MatchResult};
ghost use Rattle.queue_steps.specs.declared.model.Call.TheVariants as call;
ghost use Rattle.queue_steps.specs.declared.model.Reply.TheVariants as reply;
ghost use Rattle.queue_steps.specs.Shares.{IsEntire};
ghost use Rattle.concurrent_queue.specs.Shared.{Calls, IsPartyOf, Joins, Finishes};
ghost use Rattle.counted_channel.specs.Channel.{IsEndOf, ChannelCall, EndParts, EndJoins, Ends, GivenBack, sent, force_sent, received};

use crate::calls::{Disconnected, Popped, Pushed, SendError, WaitedQueue};
use crate::counting::Counts;
use crate::either::ChannelEnd;
use crate::sides::{Receiver, Sender};
use crate::tries::{wait_to_recv, wait_to_send};
use crate::waking::{force_push, pop, push};
use concurrent_queue::{Exclusive, NullTestable, Party, PopError, PushError};
use event_count::Look;
use std::alloc::{Allocator, Global};
use std::marker::Model;
use std::sync::Wait;

/// A queue at which ends wait, with the counts of its senders and its receivers.
///
/// A contract sees which queue it is, which table counts its ends, and on which lists those in futures wait.
#[derive(Drop)]
pub struct Channel<T, A: Allocator = Global> {
    pub(crate) queue: WaitedQueue<T, A>,
    pub(crate) counts: Counts<A>,
}

impl<T, A: Allocator> Model for Channel<T, A> {
    ghost use Rattle.std.specs.Prelude.{◌≡◌};
    ghost use Rattle.counted_channel.specs.Channel.{ChannelId};

    ghost Value = { ChannelId };

    ghost view = { λ c. record { queue = c.queue.queue; counts = c.counts.shared.table_id; receivers = c.queue.receivers; senders = c.queue.senders } };

    ghost invariant = { λ c. c.counts.shared.table_id.words ≡ 2 };
}

impl<T, A: Allocator> Channel<T, A> {
    /// Parts a sender in two, so that each of two threads has one.
    ///
    /// # Errors
    ///
    /// The sender, with its places and its share, where the queue has 2^31 parties or the channel [`MAX_ENDS`](crate::MAX_ENDS) senders, splits under way included.
    pub fn split_sender(&self, sender: Sender<T>) -> Result<(Sender<T>, Sender<T>), Sender<T>>
        requires is_end { IsEndOf sender self.now }
        ensures { MatchResult result (λ r. EndParts sender r.0 r.1) (λ s. GivenBack sender s) }
    {
        sender.split_on(self)
    }

    /// Parts a receiver in two, so that each of two threads has one.
    ///
    /// # Errors
    ///
    /// The receiver, with its places and its share, where the queue has 2^31 parties or the channel [`MAX_ENDS`](crate::MAX_ENDS) receivers, splits under way included.
    pub fn split_receiver(
        &self,
        receiver: Receiver<T>,
    ) -> Result<(Receiver<T>, Receiver<T>), Receiver<T>>
        requires is_end { IsEndOf receiver self.now }
        ensures { MatchResult result (λ r. EndParts receiver r.0 r.1) (λ r. GivenBack receiver r) }
    {
        receiver.split_on(self)
    }

    /// Makes one sender of two, as before a split. It is ended once.
    pub fn join_senders(&self, first: Sender<T>, second: Sender<T>) -> Sender<T>
        requires is_end { IsEndOf first self.now × IsEndOf second self.now }
        ensures { EndJoins first second result }
    {
        first.join_on(second, self)
    }

    /// Makes one receiver of two, as before a split. It is ended once.
    pub fn join_receivers(&self, first: Receiver<T>, second: Receiver<T>) -> Receiver<T>
        requires is_end { IsEndOf first self.now × IsEndOf second self.now }
        ensures { EndJoins first second result }
    {
        first.join_on(second, self)
    }

    /// Appends `value`. It waits while the queue is full: it gives way a few times, and then sleeps.
    ///
    /// # Errors
    ///
    /// `Closed` with the value on a closed queue, `NoMemory` with the value where a block was asked for and refused: that changes nothing.
    pub fn send<R: Wait>(
        &self,
        rt: &R,
        sender: &mut Sender<T>,
        value: T,
    ) -> Result<(), SendError<T>>
    where
        A: NullTestable,
        requires is_end { IsEndOf sender.old self.now }
        ensures { ChannelCall sender.old (call.Push value) (sent result) sender.new }
    {
        let party = &mut sender.party;
        let owed = match self.queue.push(rt, party, value, Look::Awake) {
            Pushed::Done(owed) => owed,
            Pushed::Full(back, vain) => {
                vain.end();
                return wait_to_send(&self.queue, rt, party, back);
            }
            Pushed::Closed(back, owed) => {
                owed.notify();
                return Err(SendError::Closed(back));
            }
            Pushed::NoMemory(back) => return Err(SendError::NoMemory(back)),
        };
        owed.notify();
        Ok(())
    }

    /// Appends `value` where there is room. It is one push.
    ///
    /// # Errors
    ///
    /// Those of a push, each with the value: `Full`, `Closed`, and `NoMemory` where a block was asked for and refused. `Full` and `NoMemory` change nothing. One that is answered `Closed`
    /// has found the queue closed, or has closed it, where it has taken 2^62 items.
    pub fn try_send<R: Wait>(
        &self,
        rt: &R,
        sender: &mut Sender<T>,
        value: T,
    ) -> Result<(), PushError<T>>
    where
        A: NullTestable,
        requires is_end { IsEndOf sender.old self.now }
        ensures { ChannelCall sender.old (call.Push value) (reply.Push result) sender.new }
    {
        push(&self.queue, rt, &mut sender.party, value)
    }

    /// Appends `value`, and takes the front off and hands it out where the queue was full.
    ///
    /// # Errors
    ///
    /// `Closed` with the value on a closed queue, `NoMemory` with the value where a block was asked for and refused: that changes nothing.
    pub fn force_send<R: Wait>(
        &self,
        rt: &R,
        sender: &mut Sender<T>,
        value: T,
    ) -> Result<Option<T>, SendError<T>>
    where
        A: NullTestable,
        requires is_end { IsEndOf sender.old self.now }
        ensures { ChannelCall sender.old (call.ForcePush value) (force_sent result) sender.new }
    {
        force_push(&self.queue, rt, &mut sender.party, value)
    }

    /// Takes the front off. It waits while the queue is open and empty: it gives way a few times, and then sleeps.
    ///
    /// # Errors
    ///
    /// On a closed and empty queue.
    pub fn recv<R: Wait>(&self, rt: &R, receiver: &mut Receiver<T>) -> Result<T, Disconnected>
        requires is_end { IsEndOf receiver.old self.now }
        ensures { ChannelCall receiver.old call.Pop (received result) receiver.new }
    {
        let party = &mut receiver.party;
        let (item, owed) = match self.queue.pop(rt, party, Look::Awake) {
            Popped::Item(item, owed) => (item, owed),
            Popped::Empty(vain) => {
                vain.end();
                return wait_to_recv(&self.queue, rt, party);
            }
            Popped::Closed => return Err(Disconnected),
        };
        owed.notify();
        Ok(item)
    }

    /// Takes the front off where there is one. It is one pop.
    ///
    /// # Errors
    ///
    /// Those of a pop: `Empty`, and `Closed` on a closed and empty queue.
    pub fn try_recv<R: Wait>(&self, rt: &R, receiver: &mut Receiver<T>) -> Result<T, PopError>
        requires is_end { IsEndOf receiver.old self.now }
        ensures { ChannelCall receiver.old call.Pop (reply.Pop result) receiver.new }
    {
        pop(&self.queue, rt, &mut receiver.party)
    }

    /// Closes the channel, by an end of either side, and returns whether it was open. Nothing can be sent from then on; what was sent is received. Every end that
    /// sleeps is woken. The end is still to be ended.
    pub fn close<E: ChannelEnd<T>>(&self, end: &mut E) -> bool
        requires is_end { IsEndOf (E.end end.old) self.now }
        ensures { ChannelCall (E.end end.old) call.Close (reply.Close result) (E.end end.new) }
    {
        end.close_queue(&self.queue)
    }

    /// Whether the queue is closed, so that nothing can be sent any more: an end has closed it, or the last one of either side has ended.
    pub fn is_closed<E: ChannelEnd<T>>(&self, end: &mut E) -> bool
        requires is_end { IsEndOf (E.end end.old) self.now }
        ensures { ChannelCall (E.end end.old) call.IsClosed (reply.IsClosed result) (E.end end.new) }
    {
        end.sees_closed(&self.queue)
    }

    /// How many items were sent and not received, at a moment of the call.
    pub fn len<E: ChannelEnd<T>, R: Wait>(&self, rt: &R, end: &mut E) -> usize
        requires is_end { IsEndOf (E.end end.old) self.now }
        ensures { ChannelCall (E.end end.old) call.Len (reply.Len result) (E.end end.new) }
    {
        end.count_items(&self.queue, rt)
    }

    /// Whether no item was sent that was not received, at a moment of the call.
    pub fn is_empty<E: ChannelEnd<T>>(&self, end: &mut E) -> bool
        requires is_end { IsEndOf (E.end end.old) self.now }
        ensures { ChannelCall (E.end end.old) call.IsEmpty (reply.IsEmpty result) (E.end end.new) }
    {
        end.sees_empty(&self.queue)
    }

    /// Whether there is no room, at a moment of the call.
    pub fn is_full<E: ChannelEnd<T>>(&self, end: &mut E) -> bool
        requires is_end { IsEndOf (E.end end.old) self.now }
        ensures { ChannelCall (E.end end.old) call.IsFull (reply.IsFull result) (E.end end.new) }
    {
        end.sees_full(&self.queue)
    }

    /// How many items the channel has room for, in items; nothing where it has no limit.
    pub fn capacity(&self) -> Option<usize>
        ensures { result ≡ self.now.queue.cap }
    {
        self.queue.capacity()
    }

    /// Ends a sender, and gives its party and whether it was the last. The last closes the queue.
    pub fn end_sender(&self, sender: Sender<T>) -> (Party<T>, bool)
        requires is_end { IsEndOf sender self.now }
        ensures party { Ends sender.party result.0 result.1 }
        ensures last { IsEntire sender.stake → result.1 ≡ true }
    {
        sender.end_on(self)
    }

    /// Ends a receiver, and gives its party and whether it was the last. The last closes the queue.
    pub fn end_receiver(&self, receiver: Receiver<T>) -> (Party<T>, bool)
        requires is_end { IsEndOf receiver self.now }
        ensures party { Ends receiver.party result.0 result.1 }
        ensures last { IsEntire receiver.stake → result.1 ≡ true }
    {
        receiver.end_on(self)
    }

    /// Makes one party of two that ends gave back, which has seen and done what both have.
    pub fn join(&self, first: Party<T>, second: Party<T>) -> Party<T>
        requires is_party { IsPartyOf first self.now.queue × IsPartyOf second self.now.queue }
        ensures { Joins first second result }
    {
        self.queue.join(first, second)
    }

    /// How many items are in the queue, at a moment of the call, as a party that an end gave back sees it.
    pub fn len_by<R: Wait>(&self, rt: &R, party: &mut Party<T>) -> usize
        requires is_party { IsPartyOf party.old self.now.queue }
        ensures { Calls party.old call.Len (reply.Len result) party.new }
    {
        self.queue.len(rt, party)
    }

    /// Whether the queue is closed, as a party that an end gave back sees it.
    pub fn is_closed_by(&self, party: &mut Party<T>) -> bool
        requires is_party { IsPartyOf party.old self.now.queue }
        ensures { Calls party.old call.IsClosed (reply.IsClosed result) party.new }
    {
        self.queue.is_closed(party)
    }

    /// Ends the channel: the queue with its one owner, as it is after the whole history. It does so exactly where the party has all of the share.
    ///
    /// # Errors
    ///
    /// The channel and the party, both unchanged, where a party has not been joined back.
    pub fn finish(self, party: Party<T>) -> Result<Exclusive<T, A>, (Self, Party<T>)>
        requires is_party { IsPartyOf party self.queue }
        ensures { MatchResult result (λ e. Finishes party e) (λ r. (r.0 ≡ self) × (r.1 ≡ party) × ¬ (IsEntire party.view.share)) }
    {
        let Channel { queue, counts } = self;
        match queue.finish(party) {
            Ok(left) => Ok(left),
            Err((queue, party)) => Err((Channel { queue, counts }, party)),
        }
    }
}
