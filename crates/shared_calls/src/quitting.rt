//! A call that stands before one of its steps is given up, if it has had no effect there.
ghost use Rattle.std.specs.Prelude.{◌≡◌, true, IsOk, MatchResult};
ghost use Rattle.queue_steps.specs.Kinds.{call_value};
ghost use Rattle.mem_blocks.specs.Seats.{Same};
ghost use Rattle.shared_parties.specs.Quitting.{its_call};
ghost use Rattle.shared_tables.specs.Quitting.{HasQuit};
ghost use Rattle.shared_chain.specs.Quitting.{HasQuit as HasQuitChain};
ghost use Rattle.shared_chain.specs.Turning.{SitsAt};
ghost use Rattle.shared_calls.specs.Halts.{next_at, is_early_step, Halts, HaltsIn};

use crate::allocated_chain::AllocatedChain;
use crate::chain::Asking;
use crate::early::{is_early, spare_at};
use crate::left::Left;
use atomic_table::Seat;
use mem_blocks::item::Place;
use queue_steps::steps::{ChainSteps, KindSteps, Next};
use shared_chain::source::Granting;
use shared_parties::known::CallState;
use shared_tables::table::{SharedTable, TableSteps};
use std::alloc::Allocator;

/// On a table. What the call carried comes back; or the call does, unchanged.
pub fn quit_at<T, K: TableSteps<T>, A: Allocator>(
    table: &SharedTable<T, K, A>,
    seat: &mut Seat<Option<T>, CallState<T>>,
    left: Left<T, usize>,
) -> Result<Option<T>, Left<T, usize>>
    requires table { seat.old.table_id ≡ table.now.table.shared.table_id }
    requires halts { Halts (K.layout table.now.table.shared.table_id.slots) seat.old left }
    ensures early { is_early_step (next_at left) ≡ true → IsOk result }
    ensures quits { MatchResult result (λ value. (seat.new.table_id ≡ seat.old.table_id) × HasQuit (K.layout table.now.table.shared.table_id.slots).calls seat.old.me seat.new.me × (value ≡ call_value (its_call seat.old.me.0).call)) (λ same. (same ≡ left) × (seat.new ≡ seat.old)) }
{
    let Left {
        kind,
        call,
        progress,
        carried,
    } = left;
    if let Next::Step(local, _, _) = K::Steps::next(kind, progress.local, progress.answer) {
        if is_early(&local) {
            table.quit(seat);
            return Ok(carried);
        }
    }
    Err(Left {
        kind,
        call,
        progress,
        carried,
    })
}

/// On a chain, where the call's spare block goes back to the allocator.
pub fn quit_in<T, A: Allocator>(
    queue: &AllocatedChain<T, A>,
    asking: &mut Asking<T, A, Granting>,
    left: Left<T, Place<T>>,
) -> Result<Option<T>, Left<T, Place<T>>>
    requires sits { SitsAt queue.now.chain asking.old.seat }
    requires halts { HaltsIn asking.old left }
    ensures early { is_early_step (next_at left) ≡ true → IsOk result }
    ensures quits { MatchResult result (λ value. Same asking.new.seat asking.old.seat × HasQuitChain asking.old.seat.sitter asking.new.seat.sitter × (value ≡ call_value (its_call asking.old.seat.sitter.view).call)) (λ same. (same ≡ left) × (asking.new ≡ asking.old)) }
{
    let Left {
        kind,
        call,
        progress,
        carried,
    } = left;
    if let Next::Step(local, _, _) = ChainSteps::next(kind, progress.local, progress.answer) {
        if is_early(&local) {
            queue
                .chain
                .quit(&queue.alloc, &mut asking.seat, spare_at(&local));
            return Ok(carried);
        }
    }
    Err(Left {
        kind,
        call,
        progress,
        carried,
    })
}
