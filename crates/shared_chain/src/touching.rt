//! The touch of a slot that a party's seat has in hand.
ghost use Rattle.std.specs.Prelude.{◌≡◌};
ghost use Rattle.mem_blocks.specs.Seats.{Same};
ghost use Rattle.shared_chain.specs.Names.{state_block as spec_state_block};
ghost use Rattle.shared_chain.specs.Turning.{CanTouch, Touched};

use crate::web::ChainSeat;
use mem_blocks::item::{Item, Place};
use queue_steps::steps::{Op, Touch, Word};
use std::alloc::Allocator;

/// The block whose state an operation names.
#[inline(always)]
fn state_block<T>(op: Op<Place<T>>) -> Option<Place<T>>
    ensures { result ≡ spec_state_block op }
{
    match op {
        Op::Load(Word::State(block, _)) | Op::Or(Word::State(block, _), _) => Some(block),
        _ => None,
    }
}

/// The value that a call carries goes into the slot in its seat's hand, or that slot's value to the call, where a touch is asked for.
#[inline(always)]
pub(crate) fn touch<T, A: Allocator>(
    seat: &mut ChainSeat<T, A>,
    touch: Touch,
    op: Op<Place<T>>,
    carried: &mut Option<T>,
)
    requires { CanTouch seat.old.sitter touch op carried.old }
    ensures same { Same seat.new seat.old }
    ensures touched { Touched seat.old.sitter touch carried.old seat.new.sitter carried.new }
{
    match touch {
        Touch::Nothing => {}
        Touch::Put(slot) => match (carried.take(), state_block(op)) {
            (Some(value), Some(block)) => {
                seat.put(block, slot, Item::new(value));
            }
            _ => unreachable!(),
        },
        Touch::Take(slot) => match state_block(op) {
            Some(block) => {
                let value = seat.take(block, slot).into_inner();
                let none = carried.replace(value);
                let None = none else { unreachable!() };
            }
            None => unreachable!(),
        },
        Touch::Swap(_) => unreachable!(),
    }
}
