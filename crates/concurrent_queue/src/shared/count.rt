//! The count of the parties of a shared queue, whatever its form.
use super::Form;
use crate::party::SeatPlace;
use shared_parties::count::{CountAct, PartyCount};
use std::alloc::Allocator;

impl<T, A: Allocator> PartyCount<T, SeatPlace<T>> for Form<T, A> {
    ghost use Rattle.concurrent_queue.specs.Shared.{SitsIn, known_at, number_at};

    ghost sits = { SitsIn };

    ghost id = { number_at };

    ghost knows = { known_at };

    fn act<M: CountAct<T>>(&self, place: &mut SeatPlace<T>) -> u64 {
        match (self, place) {
            (Form::Slot(slot), SeatPlace::Table(seat)) => slot.act::<M>(seat),
            (Form::Ring(ring), SeatPlace::Table(seat)) => ring.act::<M>(seat),
            (Form::Chain(queue), SeatPlace::Web(rested)) => queue.chain.act::<M>(rested),
            _ => unreachable!(),
        }
    }

    fn part(&self, place: SeatPlace<T>) -> (SeatPlace<T>, SeatPlace<T>) {
        match (self, place) {
            (Form::Slot(slot), SeatPlace::Table(seat)) => {
                let (first, second) = slot.part(seat);
                (SeatPlace::Table(first), SeatPlace::Table(second))
            }
            (Form::Ring(ring), SeatPlace::Table(seat)) => {
                let (first, second) = ring.part(seat);
                (SeatPlace::Table(first), SeatPlace::Table(second))
            }
            (Form::Chain(queue), SeatPlace::Web(rested)) => {
                let (first, second) = queue.chain.part(rested);
                (SeatPlace::Web(first), SeatPlace::Web(second))
            }
            _ => unreachable!(),
        }
    }

    fn pair(&self, first: SeatPlace<T>, second: SeatPlace<T>) -> SeatPlace<T> {
        match (self, first, second) {
            (Form::Slot(slot), SeatPlace::Table(first), SeatPlace::Table(second)) => {
                SeatPlace::Table(slot.pair(first, second))
            }
            (Form::Ring(ring), SeatPlace::Table(first), SeatPlace::Table(second)) => {
                SeatPlace::Table(ring.pair(first, second))
            }
            (Form::Chain(queue), SeatPlace::Web(first), SeatPlace::Web(second)) => {
                SeatPlace::Web(queue.chain.pair(first, second))
            }
            _ => unreachable!(),
        }
    }
}
