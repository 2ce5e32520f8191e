//! An end of a channel, with its share in keeping it.
ghost use Rattle.std.specs.Prelude.{◌≡◌, true, MatchResult, MatchOption};
ghost use Rattle.std.specs.Arc.{arc_value};
ghost use Rattle.queue_steps.specs.declared.model.Call.TheVariants as call;
ghost use Rattle.queue_steps.specs.declared.model.Reply.TheVariants as reply;
ghost use Rattle.queue_steps.specs.Parties.{IsView};
ghost use Rattle.queue_steps.specs.Shares.{IsEntire};
ghost use Rattle.counted_channel.specs.Channel.{IsEndOf, ChannelCall, EndParts, EndJoins, Ends, GivenBack};

use crate::ended::Ended;
use crate::owed::Owed;
use core::mem::replace_with;
use counted_channel::{Channel, ChannelEnd};
use std::alloc::{AllocError, Allocator, Global};
use std::marker::Model;
use std::sync::{Arc, Wait};

/// An end of a channel, and a share in keeping the channel: a [`Sender`] or a [`Receiver`](crate::Receiver). It is ended when it is dropped.
///
/// A contract sees the end, which names its channel.
pub struct Handle<E: ChannelEnd<T>, T, A: Allocator = Global> {
    pub(crate) channel: Arc<Channel<T, A>, A>,
    pub(crate) owed: Owed<E>,
    ghost of: { IsEndOf (E.end owed.end) (arc_value channel) },
}

/// An end that sends.
pub type Sender<T, A = Global> = Handle<counted_channel::Sender<T>, T, A>;

/// An end that receives.
pub type Receiver<T, A = Global> = Handle<counted_channel::Receiver<T>, T, A>;

impl<E: ChannelEnd<T>, T, A: Allocator> Model for Handle<E, T, A> {
    ghost use Rattle.counted_channel.specs.Channel.{End};

    ghost Value = { End T };

    ghost view = { λ h. E.end h.owed.end };
}

impl<E: ChannelEnd<T>, T: Drop, A: Allocator> Drop for Handle<E, T, A> {
    /// Ends it: the last of its side closes the channel, and wakes who sleeps.
    fn drop(self) {
        let Self { channel, owed } = self;
        owed.end(&channel);
    }
}

impl<E: ChannelEnd<T>, T, A: Allocator> Handle<E, T, A> {
    /// The end by hand, which is not ended when it is dropped, and its channel.
    pub fn into_parts(self) -> (Arc<Channel<T, A>, A>, E)
        ensures end { E.end result.1 ≡ self }
        ensures of { IsEndOf self (arc_value result.0) }
    {
        let Self { channel, owed } = self;
        let Owed { end } = owed;
        (channel, end)
    }

    /// The end by hand, and its channel, in one value.
    pub fn from_parts(channel: Arc<Channel<T, A>, A>, end: E) -> Self
        requires { IsEndOf (E.end end) (arc_value channel) }
        ensures { result ≡ E.end end }
    {
        Handle {
            channel,
            owed: Owed { end },
        }
    }

    /// Does nothing. Its contract tells of the end's party what `Party::show_view` tells of every party.
    pub fn show_view(&self)
        ensures { IsView self.now.party.queue.cap self.now.party.view }
    {
        self.owed.end.shows_view();
    }
}

impl<E: ChannelEnd<T>, T: Drop, A: Allocator> Handle<E, T, A> {
    /// Closes the channel, and returns whether it was open. Nothing can be sent from then on; what was sent is received. Every end that sleeps is woken.
    pub fn close(&mut self) -> bool
        ensures { ChannelCall self.old call.Close (reply.Close result) self.new }
    {
        self.channel.close(&mut self.owed.end)
    }

    /// Whether nothing can be sent any more.
    pub fn is_closed(&mut self) -> bool
        ensures { ChannelCall self.old call.IsClosed (reply.IsClosed result) self.new }
    {
        self.channel.is_closed(&mut self.owed.end)
    }

    /// Whether no item was sent that was not received.
    pub fn is_empty(&mut self) -> bool
        ensures { ChannelCall self.old call.IsEmpty (reply.IsEmpty result) self.new }
    {
        self.channel.is_empty(&mut self.owed.end)
    }

    /// Whether there is no room.
    pub fn is_full(&mut self) -> bool
        ensures { ChannelCall self.old call.IsFull (reply.IsFull result) self.new }
    {
        self.channel.is_full(&mut self.owed.end)
    }

    /// How many items were sent and not received, at a moment of the call.
    pub fn len<R: Wait>(&mut self, rt: &R) -> usize
        ensures { ChannelCall self.old call.Len (reply.Len result) self.new }
    {
        self.channel.len(rt, &mut self.owed.end)
    }

    /// How many items there is room for, or `None` where there is no limit.
    pub fn capacity(&self) -> Option<usize>
        ensures { result ≡ self.now.party.queue.cap }
    {
        self.channel.capacity()
    }

    /// Makes one more end of this one.
    ///
    /// # Errors
    ///
    /// Where there may be no more ends of this side, parties or shares in the channel. The end keeps its places, its share and its stake; it may have seen more.
    #[tactic(auto, using(crate::proofs::Kept::kept))]
    pub fn split(&mut self) -> Result<Self, AllocError>
        ensures { MatchResult result (λ two. EndParts self.old self.new two) (λ _. GivenBack self.old self.new) }
    {
        let Ok(channel) = Arc::try_clone(&self.channel) else {
            self.owed.end.shows_view();
            return Err(AllocError);
        };
        let other = replace_with(
            &mut self.owed.end,
            &channel,
            |end, channel: &Arc<Channel<T, A>, A>| -> (E, Option<E>)
                requires { IsEndOf (E.end end) (arc_value channel.now) }
                ensures { MatchOption result.1
                    (GivenBack (E.end end) (E.end result.0))
                    (λ two. EndParts (E.end end) (E.end result.0) (E.end two)) }
            {
                match end.split_on(channel) {
                    Ok((one, two)) => (one, Some(two)),
                    Err(end) => (end, None),
                }
            },
        );
        match other {
            Some(end) => Ok(Handle {
                channel,
                owed: Owed { end },
            }),
            None => Err(AllocError),
        }
    }

    /// Makes one end of two of a side, as before a split. It is ended once.
    pub fn join(self, other: Self) -> Self
        requires { (other.party.queue ≡ self.party.queue) × (other.counts ≡ self.counts) }
        ensures { EndJoins self other result }
    {
        let Self { channel, owed } = self;
        let Self {
            channel: _,
            owed: second,
        } = other;
        Handle {
            owed: owed.join(second, &channel),
            channel,
        }
    }

    /// Ends it, and gives its party of the channel and whether it was the last of its side.
    pub fn end(self) -> (Ended<T, A>, bool)
        ensures party { Ends self.party result.0 result.1 }
        ensures last { IsEntire self.stake → result.1 ≡ true }
    {
        let Self { channel, owed } = self;
        let (party, last) = owed.end(&channel);
        (Ended::of(channel, party), last)
    }
}
