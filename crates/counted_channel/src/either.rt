//! What an end of either side may ask.
ghost use Rattle.std.specs.Prelude.{◌≡◌, true, MatchResult};
ghost use Rattle.queue_steps.specs.declared.model.Call.TheVariants as call;
ghost use Rattle.queue_steps.specs.declared.model.Reply.TheVariants as reply;
ghost use Rattle.queue_steps.specs.Parties.{IsView};
ghost use Rattle.queue_steps.specs.Shares.{IsEntire};
ghost use Rattle.concurrent_queue.specs.Shared.{IsPartyOf};
ghost use Rattle.counted_channel.specs.Channel.{End, IsEndOf, ChannelCall, EndParts, EndJoins, Ends, GivenBack};

use crate::calls::WaitedQueue;
use crate::counting::{leave, part, unite};
use crate::ends::Channel;
use crate::sides::{ChannelSide, SideEnd};
use crate::waking::close;
use concurrent_queue::Party;
use std::alloc::Allocator;
use std::sync::Wait;

/// An end of a channel: a [`Sender`](crate::Sender) or a [`Receiver`](crate::Receiver). Its methods are those of [`Channel`](crate::Channel), and no other crate can implement it.
pub trait ChannelEnd<T>: Sized {
    /// What contracts see of it.
    ghost end: { Self → End T };

    /// Closes the queue, and returns whether it was open.
    fn close_queue<A: Allocator>(&mut self, queue: &WaitedQueue<T, A>) -> bool
        requires { IsPartyOf (end self.old).party queue.now.queue }
        ensures { ChannelCall (end self.old) call.Close (reply.Close result) (end self.new) };

    /// Whether the queue is closed.
    fn sees_closed<A: Allocator>(&mut self, queue: &WaitedQueue<T, A>) -> bool
        requires { IsPartyOf (end self.old).party queue.now.queue }
        ensures { ChannelCall (end self.old) call.IsClosed (reply.IsClosed result) (end self.new) };

    /// How many items are in the queue.
    fn count_items<A: Allocator, R: Wait>(&mut self, queue: &WaitedQueue<T, A>, rt: &R) -> usize
        requires { IsPartyOf (end self.old).party queue.now.queue }
        ensures { ChannelCall (end self.old) call.Len (reply.Len result) (end self.new) };

    /// Whether the queue has no item.
    fn sees_empty<A: Allocator>(&mut self, queue: &WaitedQueue<T, A>) -> bool
        requires { IsPartyOf (end self.old).party queue.now.queue }
        ensures { ChannelCall (end self.old) call.IsEmpty (reply.IsEmpty result) (end self.new) };

    /// Whether the queue has as many items as its capacity.
    fn sees_full<A: Allocator>(&mut self, queue: &WaitedQueue<T, A>) -> bool
        requires { IsPartyOf (end self.old).party queue.now.queue }
        ensures { ChannelCall (end self.old) call.IsFull (reply.IsFull result) (end self.new) };

    /// Parts it in two, or gives it back where there may be no more ends of its side.
    fn split_on<A: Allocator>(self, channel: &Channel<T, A>) -> Result<(Self, Self), Self>
        requires { IsEndOf (end self) channel.now }
        ensures { MatchResult result (λ r. EndParts (end self) (end r.0) (end r.1)) (λ e. GivenBack (end self) (end e)) };

    /// Makes one end of two.
    fn join_on<A: Allocator>(self, other: Self, channel: &Channel<T, A>) -> Self
        requires { IsEndOf (end self) channel.now × IsEndOf (end other) channel.now }
        ensures { EndJoins (end self) (end other) (end result) };

    /// Ends it, and gives its party and whether it was the last of its side.
    fn end_on<A: Allocator>(self, channel: &Channel<T, A>) -> (Party<T>, bool)
        requires { IsEndOf (end self) channel.now }
        ensures party { Ends (end self).party result.0 result.1 }
        ensures last { IsEntire (end self).stake → result.1 ≡ true };

    /// Does nothing. Its contract tells what `Party::show_view` tells of its party.
    fn shows_view(&self)
        ensures { IsView (end self.now).party.queue.cap (end self.now).party.view };
}

impl<T, S: ChannelSide> ChannelEnd<T> for SideEnd<T, S> {
    ghost end = { λ e. e };

    fn close_queue<A: Allocator>(&mut self, queue: &WaitedQueue<T, A>) -> bool {
        close(queue, &mut self.party)
    }

    fn sees_closed<A: Allocator>(&mut self, queue: &WaitedQueue<T, A>) -> bool {
        queue.is_closed(&mut self.party)
    }

    fn count_items<A: Allocator, R: Wait>(&mut self, queue: &WaitedQueue<T, A>, rt: &R) -> usize {
        queue.len(rt, &mut self.party)
    }

    fn sees_empty<A: Allocator>(&mut self, queue: &WaitedQueue<T, A>) -> bool {
        queue.is_empty(&mut self.party)
    }

    fn sees_full<A: Allocator>(&mut self, queue: &WaitedQueue<T, A>) -> bool {
        queue.is_full(&mut self.party)
    }

    fn split_on<A: Allocator>(self, channel: &Channel<T, A>) -> Result<(Self, Self), Self> {
        let mut place = self.place;
        match channel.queue.split(self.party) {
            Err(party) => Err(SideEnd::of(party, place)),
            Ok((first, second)) => match part(&channel.counts.shared, &mut place, S::WORD) {
                Some(other) => Ok((SideEnd::of(first, place), SideEnd::of(second, other))),
                None => {
                    let party = channel.queue.join(first, second);
                    Err(SideEnd::of(party, place))
                }
            },
        }
    }

    fn join_on<A: Allocator>(self, other: Self, channel: &Channel<T, A>) -> Self {
        let mut place = self.place;
        unite(&channel.counts.shared, &mut place, other.place, S::WORD);
        SideEnd::of(channel.queue.join(self.party, other.party), place)
    }

    fn end_on<A: Allocator>(self, channel: &Channel<T, A>) -> (Party<T>, bool) {
        let mut party = self.party;
        let last = leave(&channel.counts.shared, self.place, S::WORD);
        if last {
            close(&channel.queue, &mut party);
        }
        (party, last)
    }

    fn shows_view(&self) {
        self.party.show_view();
    }
}
