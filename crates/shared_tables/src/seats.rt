//! The seats of parties at the table of a shared queue, and the word that counts them, whatever the queue is made of.
ghost use Rattle.std.specs.Prelude.{[], ◌≡◌};

use crate::clauses::{fetch_add, fetch_sub, join_seat, load, split_seat};
use crate::table::{SharedTable, Sizes, TableKind};
use atomic_table::{Play, Seat};
use shared_parties::count::{Change, CountAct, PartyCount};
use shared_parties::known::CallState;
use shared_parties::parting::{Both, Halves};
use std::alloc::Allocator;
use std::marker::PhantomData;

/// The word that counts the parties, splits under way included.
pub(crate) const PARTIES: usize = 0;

/// An act on the count.
struct Counting<M> {
    of: PhantomData<M>,
}

impl<T, M: CountAct<T>> Play<Option<T>, CallState<T>> for Counting<M> {
    ghost use Rattle.shared_tables.specs.Seats.{OfView};

    ghost then = { λ st m n q. OfView (M.tells n) m q };
}

impl<T, K: Sizes + TableKind<T>, A: Allocator> PartyCount<T, Seat<Option<T>, CallState<T>>>
    for SharedTable<T, K, A> {
    ghost sits = { λ m s. (s.table_id ≡ m.table.shared.table_id) × (s.me.1 ≡ []) };

    ghost id = { λ s. s.id };

    ghost knows = { λ s. s.me.0 };

    fn act<M: CountAct<T>>(&self, seat: &mut Seat<Option<T>, CallState<T>>) -> u64 {
        let table = &self.table.shared;
        match M::change() {
            Change::Raise => fetch_add::<_, _, Counting<M>>(table, seat, PARTIES, 1),
            Change::Lower => fetch_sub::<_, _, Counting<M>>(table, seat, PARTIES, 1),
            Change::Look => load::<_, _, Counting<M>>(table, seat, PARTIES),
        }
    }

    fn part(
        &self,
        seat: Seat<Option<T>, CallState<T>>,
    ) -> (Seat<Option<T>, CallState<T>>, Seat<Option<T>, CallState<T>>) {
        let mut first = seat;
        let second = split_seat::<_, _, Halves>(&self.table.shared, &mut first);
        (first, second)
    }

    fn pair(
        &self,
        first: Seat<Option<T>, CallState<T>>,
        second: Seat<Option<T>, CallState<T>>,
    ) -> Seat<Option<T>, CallState<T>> {
        let mut both = first;
        join_seat::<_, _, Both>(&self.table.shared, &mut both, second);
        both
    }
}
