//! The seats of parties of a shared chain, and the word that counts them.
ghost use Rattle.std.specs.Prelude.{◌≡◌, true};

use crate::web::{ChainSeat, ChainWeb};
use mem_blocks::hub::PARTIES;
use mem_blocks::item::Item;
use mem_blocks::web::{Play, Rested};
use shared_parties::count::{Change, CountAct, PartyCount};
use shared_parties::known::CallState;
use shared_parties::parting::{Both, Halves};
use std::alloc::Allocator;
use std::marker::PhantomData;

/// An act on the count.
struct Counting<M> {
    of: PhantomData<M>,
}

impl<T, M: CountAct<T>> Play<Item<T>, CallState<T>> for Counting<M> {
    ghost use Rattle.shared_chain.specs.Parties.{OfView};

    ghost then = { λ st m n q. OfView (M.tells n) m q };
}

impl<T, A: Allocator> PartyCount<T, Rested<CallState<T>>> for ChainWeb<T, A> {
    ghost use Rattle.shared_chain.specs.Turning.{web_of};

    ghost sits = { λ w r. (r.asleep ≡ true) × (r.web ≡ web_of w) };

    ghost id = { λ r. r.id };

    ghost knows = { λ r. r.view };

    fn act<M: CountAct<T>>(&self, party: &mut Rested<CallState<T>>) -> u64 {
        let (web, tail) = (&self.web, self.tail);
        let mut seat = party.take(web);
        let found = match M::change() {
            Change::Raise => web.fetch_add::<Counting<M>>(&mut seat, tail, PARTIES, 1),
            Change::Lower => web.fetch_sub::<Counting<M>>(&mut seat, tail, PARTIES, 1),
            Change::Look => web.load::<Counting<M>>(&mut seat, tail, PARTIES),
        };
        *party = seat.rests();
        found
    }

    fn part(&self, party: Rested<CallState<T>>) -> (Rested<CallState<T>>, Rested<CallState<T>>) {
        let mut first = party.wakes(&self.web);
        let second = self.web.split::<Halves>(&mut first, self.tail);
        (first.rests(), second.rests())
    }

    fn pair(
        &self,
        first: Rested<CallState<T>>,
        second: Rested<CallState<T>>,
    ) -> Rested<CallState<T>> {
        let mut both = first.wakes(&self.web);
        let other = second.wakes(&self.web);
        self.web.join::<Both>(&mut both, other, self.tail);
        both.rests()
    }
}

impl<T, A: Allocator> ChainWeb<T, A> {
    ghost use Rattle.shared_chain.specs.Turning.{SitsAt, web_of};
    ghost use Rattle.std.specs.Prelude.{false, None};
    ghost use Rattle.mem_blocks.specs.Web.{sitter};

    /// The seat of a party between its calls.
    #[inline(always)]
    pub fn wake(&self, party: &mut Rested<CallState<T>>) -> ChainSeat<T, A>
        requires { (party.old.asleep ≡ true) × (party.old.web ≡ web_of self.now) }
        ensures seat { SitsAt self.now result × (result.sitter ≡ sitter party.old.view None None) }
        ensures left { party.new.asleep ≡ false }
    {
        party.take(&self.web)
    }
}
