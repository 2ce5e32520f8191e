//! The touch of a slot that a party's seat holds.
ghost use Rattle.std.specs.Prelude.{◌≡◌};
ghost use Rattle.shared_tables.specs.AtTable.{CanTouch, Touched};

use atomic_table::{Seat, Shared, TableRule};
use queue_steps::steps::Touch;
use shared_parties::known::CallState;
use std::mem;

/// The slot that a seat holds and what a call carries change places, where a touch is asked for.
#[inline(always)]
pub(crate) fn touch<T, P: TableRule<Option<T>, CallState<T>, usize>>(
    table: &Shared<Option<T>, CallState<T>, usize, P>,
    seat: &mut Seat<Option<T>, CallState<T>>,
    touch: Touch,
    carried: &mut Option<T>,
)
    requires table { seat.old.table_id ≡ table.now.table_id }
    requires can { CanTouch touch seat.old.me }
    ensures same { (seat.new.table_id ≡ seat.old.table_id) × (seat.new.id ≡ seat.old.id) }
    ensures touched { Touched touch seat.old.me carried.old seat.new.me carried.new }
{
    match touch {
        Touch::Nothing => {}
        Touch::Put(slot) | Touch::Swap(slot) | Touch::Take(slot) => {
            let own = carried.take();
            let left = table.exchange(seat, slot, own);
            let none = mem::replace(carried, left);
            let None = none else { unreachable!() };
        }
    }
}
