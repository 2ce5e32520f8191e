//! The sides of a channel, and the ends of a side. A side is known by the word of the channel's table that counts its ends.
ghost use Rattle.std.specs.Prelude.{◌≡◌, ℕ, ◌<◌};
ghost use Rattle.std.proofs.Math.Nat.{zero-lt-suc, lt-suc_self};
ghost use Rattle.queue_steps.specs.Parties.{IsView};
ghost use Rattle.counted_channel.specs.Channel.{end_at};
ghost use Rattle.counted_channel.specs.Counting.{IsEndSeat};

use crate::counting::EndSeat;
use concurrent_queue::Party;
use std::marker::{Model, PhantomData};

/// A side of a channel. No other crate can name it.
pub trait ChannelSide {
    /// The word that counts its ends.
    const WORD: usize;

    ghost WORD: { ℕ };

    ghost is_word: { WORD < 2 };
}

/// The side of the senders.
#[derive(Drop)]
pub struct Senders;

/// The side of the receivers.
#[derive(Drop)]
pub struct Receivers;

impl ChannelSide for Senders {
    const WORD: usize = 0;

    ghost WORD = { 0 };

    ghost is_word = { zero-lt-suc 1 };
}

impl ChannelSide for Receivers {
    const WORD: usize = 1;

    ghost WORD = { 1 };

    ghost is_word = { lt-suc_self 1 };
}

/// An end of this side: its party of the queue, and its seat at the counts.
#[derive(Drop)]
pub struct SideEnd<T, S: ChannelSide> {
    pub(crate) party: Party<T>,
    pub(crate) place: EndSeat,
    side: PhantomData<S>,
}

impl<T, S: ChannelSide> Model for SideEnd<T, S> {
    ghost use Rattle.counted_channel.specs.Channel.{End, end_at};
    ghost use Rattle.counted_channel.specs.Counting.{IsEndSeat};

    ghost Value = { End T };

    ghost view = { λ e. end_at S.WORD e.party e.place.table_id e.place.me.0 };

    ghost invariant = { λ e. IsEndSeat S.WORD e.place.me };
}

/// An end that sends. It has a party of the queue.
///
/// One that is dropped was not ended: its side has no last end from then on, and the channel cannot be finished.
pub type Sender<T> = SideEnd<T, Senders>;

/// An end that receives. It has a party of the queue.
///
/// One that is dropped was not ended: its side has no last end from then on, and the channel cannot be finished.
pub type Receiver<T> = SideEnd<T, Receivers>;

impl<T, S: ChannelSide> SideEnd<T, S> {
    /// The end of this party and this seat.
    pub(crate) fn of(party: Party<T>, place: EndSeat) -> Self
        requires { IsEndSeat S.WORD place.me }
        ensures { result ≡ end_at S.WORD party place.table_id place.me.0 }
    {
        SideEnd {
            party,
            place,
            side: PhantomData,
        }
    }

    /// Does nothing. Its contract tells of the end's party what `Party::show_view` tells of every party.
    pub fn show_view(&self)
        ensures { IsView self.now.party.queue.cap self.now.party.view }
    {
        self.party.show_view();
    }
}
