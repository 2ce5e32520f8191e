//! Ends that have still to be ended: a value of [`Owed`] cannot be dropped.
ghost use Rattle.std.specs.Prelude.{◌≡◌, true};
ghost use Rattle.queue_steps.specs.Shares.{IsEntire};
ghost use Rattle.counted_channel.specs.Channel.{IsEndOf, EndJoins, Ends};

use concurrent_queue::Party;
use counted_channel::{Channel, ChannelEnd};
use std::alloc::Allocator;

/// An end that has still to be ended. It is not `Drop`, so that no body of a `drop` can leave it out.
pub(crate) struct Owed<E> {
    pub(crate) end: E,
}

impl<E> Owed<E> {
    /// Ends it, and gives its party and whether it was the last of its side. The last closes the channel.
    pub(crate) fn end<T, A: Allocator>(self, channel: &Channel<T, A>) -> (Party<T>, bool)
    where
        E: ChannelEnd<T>,
        requires { IsEndOf (E.end self.end) channel.now }
        ensures party { Ends (E.end self.end).party result.0 result.1 }
        ensures last { IsEntire (E.end self.end).stake → result.1 ≡ true }
    {
        let Owed { end } = self;
        end.end_on(channel)
    }

    /// Makes one end of two.
    pub(crate) fn join<T, A: Allocator>(self, other: Self, channel: &Channel<T, A>) -> Self
    where
        E: ChannelEnd<T>,
        requires { IsEndOf (E.end self.end) channel.now × IsEndOf (E.end other.end) channel.now }
        ensures { EndJoins (E.end self.end) (E.end other.end) (E.end result.end) }
    {
        let Owed { end } = self;
        let Owed { end: second } = other;
        Owed {
            end: end.join_on(second, channel),
        }
    }
}
