//! How a party's call begins: its fast steps, by the row of its form.
//!
//! A form's row is named by a type of its own. To name the row itself where the site is known takes the prover long.
ghost use Rattle.std.specs.ControlFlow.{MatchControlFlow};
ghost use Rattle.shared_calls.specs.Leaving.{IsLeft};

use crate::left::Left;
use crate::waiting::run_fast;
use call_driver::fast::{OfRing, Short, Usual};
use call_driver::gate::Gate;
use call_driver::site::Site;
use queue_steps::model::{Call, Reply};
use std::marker::PhantomData;
use std::ops::ControlFlow;

/// Which row of fast steps a call takes.
pub trait FastSteps<M: Site> {
    /// Begins a call and takes its fast steps. It does not wait. `W` tells the calls apart, so that each has steps of its own.
    fn run<G: Gate, W>(
        self,
        site: &M::Shared,
        gate: &G,
        seat: &mut M::Seat,
        call: Call<M::Item>,
    ) -> ControlFlow<Reply<M::Item>, Left<M::Item, M::Block>>
        requires rests { M.rests site.now seat.old }
        ensures { MatchControlFlow result (λ left. IsLeft M.Site site.now seat.old call left seat.new) (λ reply. M.ended site.now seat.old call reply seat.new) };
}

/// The short row, for one slot.
#[derive(Drop)]
pub struct OnSlot;

impl<M: Site> FastSteps<M> for OnSlot {
    #[inline(always)]
    fn run<G: Gate, W>(
        self,
        site: &M::Shared,
        gate: &G,
        seat: &mut M::Seat,
        call: Call<M::Item>,
    ) -> ControlFlow<Reply<M::Item>, Left<M::Item, M::Block>>
        requires rests { M.rests site.now seat.old }
        ensures { MatchControlFlow result (λ left. IsLeft M.Site site.now seat.old call left seat.new) (λ reply. M.ended site.now seat.old call reply seat.new) }
    {
        run_fast::<M, G, Short<W>>(site, gate, seat, call)
    }
}

/// One of two copies of a ring's row, made for the two answers of a test that each step would make: so it is made once in a call, and the compiler knows in each copy how it came out.
#[derive(Drop)]
pub struct OnRing {
    /// Whether the capacity is a power of two.
    pub is_masked: bool,
}

/// The calls of `W` once more. It does nothing but tell one copy of a row from the other.
struct Again<W> {
    of: PhantomData<W>,
}

impl<M: Site> FastSteps<M> for OnRing {
    #[inline(always)]
    fn run<G: Gate, W>(
        self,
        site: &M::Shared,
        gate: &G,
        seat: &mut M::Seat,
        call: Call<M::Item>,
    ) -> ControlFlow<Reply<M::Item>, Left<M::Item, M::Block>>
        requires rests { M.rests site.now seat.old }
        ensures { MatchControlFlow result (λ left. IsLeft M.Site site.now seat.old call left seat.new) (λ reply. M.ended site.now seat.old call reply seat.new) }
    {
        if self.is_masked {
            run_fast::<M, G, OfRing<Again<W>>>(site, gate, seat, call)
        } else {
            run_fast::<M, G, OfRing<W>>(site, gate, seat, call)
        }
    }
}

/// The usual row, for a chain of blocks.
#[derive(Drop)]
pub struct OnChain;

impl<M: Site> FastSteps<M> for OnChain {
    #[inline(always)]
    fn run<G: Gate, W>(
        self,
        site: &M::Shared,
        gate: &G,
        seat: &mut M::Seat,
        call: Call<M::Item>,
    ) -> ControlFlow<Reply<M::Item>, Left<M::Item, M::Block>>
        requires rests { M.rests site.now seat.old }
        ensures { MatchControlFlow result (λ left. IsLeft M.Site site.now seat.old call left seat.new) (λ reply. M.ended site.now seat.old call reply seat.new) }
    {
        run_fast::<M, G, Usual<W>>(site, gate, seat, call)
    }
}
