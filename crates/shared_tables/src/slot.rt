//! One slot that parties share: a table of the count of parties, the slot's word, and the slot.
ghost use Rattle.std.specs.Prelude.{◌≡◌, [], IfOk, Some};
ghost use Rattle.queue_steps.specs.Effect.{after};
ghost use Rattle.queue_steps.specs.Legal.{IsShown};
ghost use Rattle.queue_steps.specs.Parties.{IsWhole};
ghost use Rattle.queue_steps.specs.Shares.{entire};
ghost use Rattle.shared_parties.specs.Known.{party, view_of};
ghost use Rattle.shared_parties.specs.CallStates.{idle, IsSeatAlone};
ghost use Rattle.own_cells.specs.OneSlot.OwnSlotCells.{IsIdle, slot_owned};

use crate::table::{SharedTable, Sizes, TableKind, TableSteps};
use atomic_table::{Seat, Table};
use own_cells::slot::OwnSlot;
use queue_steps::steps::{Kind, SlotSteps, Word};
use shared_parties::known::CallState;
use std::alloc::{AllocError, Allocator};

/// The word that says what is in the slot.
const LOCK: usize = 1;

/// Queues of one slot.
pub struct Slots;

impl Sizes for Slots {
    ghost least = { 1 };

    ghost most = { 1 };

    ghost words = { λ _. 2 };
}

impl<T> TableKind<T> for Slots {
    ghost use Rattle.shared_tables.specs.SlotTable.{slot_table};

    ghost layout = { λ _. slot_table };
}

impl<T> TableSteps<T> for Slots {
    type Steps = SlotSteps;

    ghost use Rattle.std.specs.Prelude.{refl};
    ghost use Rattle.shared_tables.specs.Laws.SlotSteps.{slot_table_laws};

    ghost steps_fit = { λ _. refl };

    ghost laws = { λ slots some one. slot_table_laws };

    #[inline(always)]
    fn kind(_slots: usize) -> Kind {
        Kind::Single
    }

    #[inline(always)]
    fn place(_word: Word<usize>) -> usize {
        LOCK
    }
}

/// An empty open slot, and the seat of its only party.
pub fn open_slot<T, A: Allocator + Clone>(
    alloc: A,
) -> Result<(SharedTable<T, Slots, A>, Seat<Option<T>, CallState<T>>), AllocError>
    ensures { IfOk result (λ r. (r.1.table_id ≡ r.0.table.shared.table_id) × (r.1.me ≡ (idle (party (Some 1) [] [] entire), []))) }
{
    let (table, seat) = Table::vacant(alloc, &[1, 0], 1, &1)?;
    Ok((SharedTable { table, slots: 1 }, seat))
}

/// What is left when the only party ends the table.
pub fn end_slot<T, A: Allocator>(
    slot: SharedTable<T, Slots, A>,
    seat: Seat<Option<T>, CallState<T>>,
) -> OwnSlot<T>
    requires table { seat.table_id ≡ slot.table.shared.table_id }
    requires alone { IsSeatAlone seat.me.0 }
    ensures { IsIdle result × IsShown (slot_owned result).queue (after (Some 1) seat.me.0.known.seen) × IsWhole (view_of seat.me.0.known) }
{
    let SharedTable { table, slots: _ } = slot;
    let mut closed = table.close_with(seat);
    let lock = closed.word(LOCK);
    let item = closed.take(0);
    closed.free();
    OwnSlot { lock, item }
}

/// The word, by a load without a seat, which tells nothing of the history.
pub fn peek_word<T, A: Allocator>(slot: &SharedTable<T, Slots, A>) -> u64 {
    slot.table.shared.peek(LOCK)
}
