//! The parties of a shared queue as contracts see them, whatever the queue is made of.
ghost use Rattle.std.specs.Prelude.{◌≡◌};
ghost use Rattle.queue_steps.specs.Parties.{IsView};
ghost use Rattle.concurrent_queue.specs.Shared.{IsHeld, party_view_of};

use atomic_table::Seat;
use mem_blocks::web::Rested;
use shared_parties::known::CallState;
use std::marker::Model;

/// Where the seat of a party is.
#[derive(Drop)]
pub(crate) enum SeatPlace<T> {
    /// At the table of a queue with a capacity.
    Table(Seat<Option<T>, CallState<T>>),
    /// In the web of a queue without one, between its calls.
    Web(Rested<CallState<T>>),
    /// Nowhere: a call has its seat.
    Away,
}

/// A party of a shared queue. It sees a beginning of the queue's one history, and some places of that are its own: those of the effects of its calls.
#[derive(Drop)]
pub struct Party<T> {
    pub(crate) place: SeatPlace<T>,
}

impl<T> Model for Party<T> {
    ghost use Rattle.concurrent_queue.specs.Shared.{PartyView, IsHeld, party_view_of};

    ghost Value = { PartyView T };

    ghost view = { λ p. party_view_of p.place };

    ghost invariant = { λ p. IsHeld p.place };
}

impl<T> Party<T> {
    /// The party whose seat is there.
    pub(crate) fn at(place: SeatPlace<T>) -> Self
        requires { IsHeld place }
        ensures { result ≡ party_view_of place }
    {
        Party { place }
    }

    /// Does nothing. Its contract tells what holds of every party: what it has seen is a history of a queue of its capacity, its places lie in that, none
    /// twice, and its share is some part of one. If it is all, every place of what the party has seen is its own.
    pub fn show_view(&self)
        ensures { IsView self.now.queue.cap self.now.view }
    {
        let _ = &self.place;
    }
}
