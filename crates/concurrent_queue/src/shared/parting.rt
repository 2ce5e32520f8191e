//! Parties of a shared queue: parted, joined, met, and the end of the sharing.
ghost use Rattle.std.specs.Prelude.{◌≡◌, MatchResult};
ghost use Rattle.queue_steps.specs.Shares.{IsEntire};
ghost use Rattle.concurrent_queue.specs.Shared.{IsPartyOf, Parts, Joins, Meets, Finishes};

use super::Form;
use crate::party::{Party, SeatPlace};
use crate::shared::ConcurrentQueue;
use exclusive_queue::Exclusive;
use shared_calls::allocated_chain::AllocatedChain;
use shared_parties::count::{is_only, join, meet, split};
use shared_tables::ring::end_ring;
use shared_tables::slot::end_slot;
use std::alloc::Allocator;
use std::mem;

impl<T, A: Allocator> ConcurrentQueue<T, A> {
    /// Parts a party in two. The first keeps what the party has done, both have seen what it has, and each has half of its share.
    ///
    /// # Errors
    ///
    /// The party itself, where the queue has as many parties as it may; so it is not the only one.
    pub fn split(&self, party: Party<T>) -> Result<(Party<T>, Party<T>), Party<T>>
        requires is_party { IsPartyOf party self.now }
        ensures { MatchResult result (λ r. Parts party r.0 r.1) (λ p. (p ≡ party) × ¬ (IsEntire party.view.share)) }
    {
        match split(&self.form, party.place) {
            Ok((first, second)) => Ok((Party::at(first), Party::at(second))),
            Err(place) => Err(Party::at(place)),
        }
    }

    /// Makes one party of two, which has seen and done what both have.
    pub fn join(&self, first: Party<T>, second: Party<T>) -> Party<T>
        requires is_party { IsPartyOf first self.now × IsPartyOf second self.now }
        ensures { Joins first second result }
    {
        Party::at(join(&self.form, first.place, second.place))
    }

    /// Both parties have then seen what either has seen.
    pub fn meet(&self, first: &mut Party<T>, second: &mut Party<T>)
        requires is_party { IsPartyOf first.old self.now × IsPartyOf second.old self.now }
        ensures { Meets first.old second.old first.new second.new }
    {
        let one = mem::replace(&mut first.place, SeatPlace::Away);
        let other = mem::replace(&mut second.place, SeatPlace::Away);
        let (one, other) = meet(&self.form, one, other);
        first.place = one;
        second.place = other;
    }

    /// Ends the sharing: the queue with its one owner, as it is after the whole history. It does so exactly where the party has all of the share.
    ///
    /// # Errors
    ///
    /// The queue and the party, both unchanged, where a party that was split off has not been joined back.
    pub fn finish(self, party: Party<T>) -> Result<Exclusive<T, A>, (Self, Party<T>)>
        requires is_party { IsPartyOf party self }
        ensures { MatchResult result (λ e. Finishes party e) (λ r. (r.0 ≡ self) × (r.1 ≡ party) × ¬ (IsEntire party.view.share)) }
    {
        let ConcurrentQueue { form } = self;
        let mut place = party.place;
        if !is_only(&form, &mut place) {
            return Err((ConcurrentQueue { form }, Party::at(place)));
        }
        match (form, place) {
            (Form::Slot(slot), SeatPlace::Table(seat)) => {
                Ok(Exclusive::of_slot(end_slot(slot, seat)))
            }
            (Form::Ring(ring), SeatPlace::Table(seat)) => {
                Ok(Exclusive::of_ring(end_ring(ring, seat)))
            }
            (Form::Chain(queue), SeatPlace::Web(mut rested)) => {
                let AllocatedChain { alloc, chain } = queue;
                let seat = chain.wake(&mut rested);
                Ok(Exclusive::of_chain(chain.end(alloc, seat)))
            }
            _ => unreachable!(),
        }
    }
}
