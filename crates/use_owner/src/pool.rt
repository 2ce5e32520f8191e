//! A pool of numbered places: each is free, or out with the one taker that it was handed to.
ghost use Rattle.std.specs.Prelude.{◌≡◌, ◌<◌, ◌≤◌, IfOk, MatchResult};
ghost use Rattle.queue_steps.specs.declared.sizes.TheConstants.{LIMIT};
ghost use Rattle.use_owner.specs.Pool.{numbers, IsOut, TakesOne, GivesBack};

use exclusive_queue::Exclusive;
use std::alloc::{AllocError, Allocator, Global};
use std::marker::Model;

/// A pool of places, which have the numbers from 0 on.
///
/// A contract sees how many places there are, the free ones in the order in which they will be handed out, and how many were ever put in.
#[derive(Drop)]
pub struct Pool<A: Allocator = Global> {
    ring: Exclusive<u64, A>,
}

impl<A: Allocator> Model for Pool<A> {
    ghost use Rattle.use_owner.specs.Pool.{Places};

    ghost Value = { Places };

    ghost use Rattle.use_owner.specs.PoolRings.{places_of, IsPool};

    ghost view = { λ pool. places_of pool.ring };

    ghost invariant = { λ pool. IsPool pool.ring };
}

impl<A: Allocator + Clone> Pool<A> {
    /// A pool of this many places, two at least, all of them free.
    ///
    /// # Errors
    ///
    /// As for a ring of this capacity: there is no memory, or there are more than 2^59 places.
    pub fn new(alloc: A, count: usize) -> Result<Self, AllocError>
        requires { 1 < count }
        ensures { IfOk result (λ pool. pool ≡ record { count = count; free = numbers count; put_in = count }) }
    {
        let mut ring = Exclusive::bounded(alloc, count)?;
        for place in 0..count as u64 {
            let Ok(()) = ring.push(place) else {
                unreachable!()
            };
        }
        Ok(Pool { ring })
    }
}

impl<A: Allocator> Pool<A> {
    /// Takes a free place out, or none where all are out. No taker had it before.
    pub fn take(&mut self) -> Option<u64>
        ensures { TakesOne self.old result self.new }
    {
        self.ring.pop().ok()
    }

    /// Gives a place back that is out.
    ///
    /// # Errors
    ///
    /// The place, where `LIMIT` were put in before it. The pool is as it was.
    pub fn give_back(&mut self, place: u64) -> Result<(), u64>
        requires { IsOut self.old place }
        ensures { MatchResult result
            (λ _. GivesBack self.old place self.new)
            (λ back. (back ≡ place) × (self.old.put_in ≡ LIMIT) × (self.new ≡ self.old)) }
    {
        self.ring.show_sound();
        match self.ring.push(place) {
            Ok(()) => Ok(()),
            Err(error) => Err(error.into_inner()),
        }
    }
}
