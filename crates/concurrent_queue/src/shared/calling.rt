//! Where a party's call is made: what tells the forms of a queue apart for calls that leave the seat in its place.
ghost use Rattle.concurrent_queue.specs.Calling.{IsHeldIn};
ghost use Rattle.concurrent_queue.specs.Shared.{Calls, IsHeld, party_view_of};

use super::Form;
use crate::party::SeatPlace;
use queue_steps::model::Reply;
use shared_calls::beginning::{OnRing, OnSlot};
use shared_calls::chain;
use shared_calls::running::Runs;
use shared_chain::source::Source;
use shared_tables::ring::Rings;
use shared_tables::slot::Slots;
use shared_tables::table::SharedTable;
use std::alloc::Allocator;

/// The row of a call on this ring.
#[inline(always)]
pub(crate) fn on_ring<T, A: Allocator>(ring: &SharedTable<T, Rings, A>) -> OnRing {
    OnRing {
        is_masked: ring.slots().is_power_of_two(),
    }
}

impl<T, A: Allocator> Form<T, A> {
    /// Makes a call of the party whose seat is there. The blocks that it asks for come from `Q`.
    #[inline(always)]
    pub(crate) fn run<Q: Source<T, A>, V: Runs<T>>(
        &self,
        place: &mut SeatPlace<T>,
        run: V,
    ) -> Reply<T>
        requires held { IsHeldIn self.now place.old }
        requires may { V.may run }
        ensures { IsHeld place.new × Calls (party_view_of place.old) (V.call run) result (party_view_of place.new) }
    {
        match (self, place) {
            (Form::Slot(slot), SeatPlace::Table(seat)) => {
                run.run::<SharedTable<T, Slots, A>, OnSlot>(OnSlot, slot, seat)
            }
            (Form::Ring(ring), SeatPlace::Table(seat)) => {
                run.run::<SharedTable<T, Rings, A>, OnRing>(on_ring(ring), ring, seat)
            }
            (Form::Chain(queue), SeatPlace::Web(rested)) => {
                chain::run_in::<T, A, Q, V>(queue, rested, run)
            }
            _ => unreachable!(),
        }
    }
}
