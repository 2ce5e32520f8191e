//! What is left of an end that has ended.
ghost use Rattle.std.specs.Prelude.{◌≡◌, MatchResult};
ghost use Rattle.std.specs.Arc.{arc_value};
ghost use Rattle.queue_steps.specs.Parties.{IsView};
ghost use Rattle.concurrent_queue.specs.Shared.{IsPartyOf, Joins, Finishes};
ghost use Rattle.channel_handle.specs.Left.{IsLeft};

use concurrent_queue::{Exclusive, Party};
use counted_channel::Channel;
use std::alloc::{Allocator, Global};
use std::marker::Model;
use std::sync::Arc;

/// An end that has ended: its party of the channel, which knows what the end has done, and a share in keeping the channel.
///
/// A contract sees the party, which names its queue.
#[derive(Drop)]
pub struct Ended<T, A: Allocator = Global> {
    channel: Arc<Channel<T, A>, A>,
    party: Party<T>,
    ghost of: { IsPartyOf party (arc_value channel).queue },
}

/// Why the items of a channel could not be had.
#[derive(Drop)]
pub enum Unfinished<T, A: Allocator = Global> {
    /// There are other ends, or others that have ended. This one is unchanged.
    Shared(Ended<T, A>),
    /// There is no other, but a party is missing: an end was dropped.
    Missing(Channel<T, A>, Party<T>),
}

impl<T, A: Allocator> Model for Ended<T, A> {
    ghost use Rattle.concurrent_queue.specs.Shared.{PartyView};

    ghost Value = { PartyView T };

    ghost view = { λ e. e.party };
}

impl<T, A: Allocator> Ended<T, A> {
    /// Does nothing. Its contract tells of the party what `Party::show_view` tells of every party.
    pub fn show_view(&self)
        ensures { IsView self.now.queue.cap self.now.view }
    {
        self.party.show_view();
    }
}

impl<T: Drop, A: Allocator> Ended<T, A> {
    /// The party of an end that has ended.
    pub(crate) fn of(channel: Arc<Channel<T, A>, A>, party: Party<T>) -> Self
        requires { IsPartyOf party (arc_value channel).queue }
        ensures { result ≡ party }
    {
        Ended { channel, party }
    }

    /// Makes one of two, which knows what both ends have done.
    pub fn join(self, other: Self) -> Self
        requires { other.queue ≡ self.queue }
        ensures { Joins self other result }
    {
        let Ended { channel, party } = self;
        let party = channel.join(party, other.party);
        Ended { channel, party }
    }

    /// Ends the channel: its queue with one owner, as it is after the whole history. It does so where this is all that is left of the channel's ends, and no party is missing.
    ///
    /// # Errors
    ///
    /// What there is, unchanged: the ended end, or channel and party where a party is missing. No clause promises that there is no other end: who else has a share in the channel is in no contract.
    pub fn finish(self) -> Result<Exclusive<T, A>, Unfinished<T, A>>
        ensures { MatchResult result (λ queue. Finishes self queue) (λ left. IsLeft self left) }
    {
        let Ended { channel, party } = self;
        match Arc::try_unwrap(channel) {
            Ok(channel) => match channel.finish(party) {
                Ok(queue) => Ok(queue),
                Err((channel, party)) => Err(Unfinished::Missing(channel, party)),
            },
            Err(channel) => Err(Unfinished::Shared(Ended { channel, party })),
        }
    }
}
