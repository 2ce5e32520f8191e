//! A ring that parties share: a table of the count of parties, the tail, the head and the stamps, and of the slots.
ghost use Rattle.std.specs.Prelude.{◌≡◌, ◌<◌, ◌≤◌, ℕ, [], Some, IfOk, IsErr};
ghost use Rattle.queue_steps.specs.declared.sizes.TheConstants.{MAX_CAPACITY};
ghost use Rattle.queue_steps.specs.Effect.{after};
ghost use Rattle.queue_steps.specs.Legal.{IsShown};
ghost use Rattle.queue_steps.specs.Parties.{IsWhole};
ghost use Rattle.queue_steps.specs.Shares.{entire};
ghost use Rattle.queue_steps.specs.Words.{IsRing};
ghost use Rattle.shared_parties.specs.Known.{party, view_of};
ghost use Rattle.shared_tables.specs.RingOpening.{IsFirst};
ghost use Rattle.shared_parties.specs.CallStates.{idle, IsSeatAlone};
ghost use Rattle.own_cells.specs.OneRing.RingOwned.{IsIdle, ring_owned};

use crate::table::{SharedTable, Sizes, TableKind, TableSteps};
use atomic_table::Seat;
use own_cells::ring::own_ring::OwnRing;
use own_cells::ring::ring_words::{HEAD, TAIL, bare_words, stamp_word};
use own_cells::ring::vacant::{discard, empty_slots, table_of};
use queue_steps::sizes::MAX_CAPACITY;
use queue_steps::steps::{Kind, RingSteps, Word};
use shared_parties::known::CallState;
use std::alloc::{AllocError, Allocator};

/// Rings of more than one slot.
pub struct Rings;

impl Sizes for Rings {
    ghost use Rattle.queue_steps.specs.declared.sizes.TheConstants.{MAX_CAPACITY};
    ghost use Rattle.own_cells.specs.OneRing.RingWords.{words_of};

    ghost least = { 2 };

    ghost most = { MAX_CAPACITY };

    ghost words = { λ slots. words_of slots };
}

impl<T> TableKind<T> for Rings {
    ghost use Rattle.shared_tables.specs.RingTable.{ring_table};

    ghost layout = { ring_table };
}

impl<T> TableSteps<T> for Rings {
    type Steps = RingSteps;

    ghost use Rattle.std.specs.Prelude.{refl};
    ghost use Rattle.queue_steps.specs.declared.sizes.TheConstants.{MAX_CAPACITY};
    ghost use Rattle.shared_tables.specs.Laws.RingSteps.{ring_table_laws};
    ghost use Rattle.queue_laws.specs.Ring.RingShared.{HasPlace};
    ghost use Rattle.shared_tables.specs.RingTable.{word_index};

    ghost steps_fit = { λ slots. (slots, refl) };

    ghost laws = { λ slots wide small. ring_table_laws slots (wide, small) };

    #[inline(always)]
    fn kind(slots: usize) -> Kind {
        Kind::Bounded(slots)
    }

    #[inline(always)]
    fn place(word: Word<usize>) -> usize
        requires has { (slots : _) × (slots ≤ MAX_CAPACITY) × HasPlace slots word }
        ensures { (slots : ℕ) → result ≡ word_index word }
    {
        match word {
            Word::Tail => TAIL,
            Word::Head => HEAD,
            Word::Stamp(slot) => stamp_word(slot),
            _ => unreachable!(),
        }
    }
}

/// The words of the table of an empty open ring.
fn first_words<A: Allocator>(alloc: A, capacity: usize) -> Result<Vec<u64, A>, AllocError>
    requires { IsRing capacity }
    ensures { IfOk result (λ v. IsFirst capacity capacity v.items) }
{
    let mut words = bare_words(alloc, capacity, 0, 0)?;
    for slot in 0..capacity {
        words[stamp_word(slot)] = slot as u64;
    }
    Ok(words)
}

/// An empty open ring, and the seat of its only party.
pub fn open_ring<T, A: Allocator + Clone>(
    alloc: A,
    capacity: usize,
) -> Result<(SharedTable<T, Rings, A>, Seat<Option<T>, CallState<T>>), AllocError>
    requires { 1 < capacity }
    ensures limited { MAX_CAPACITY < capacity → IsErr result }
    ensures first { IfOk result (λ r. (r.1.table_id ≡ r.0.table.shared.table_id) × (r.0.table.shared.table_id.slots ≡ capacity) × IsRing capacity × (r.1.me ≡ (idle (party (Some capacity) [] [] entire), []))) }
{
    if capacity > MAX_CAPACITY {
        return Err(AllocError);
    }
    let for_words = alloc.clone()?;
    let slots = empty_slots::<T, A>(alloc.clone()?, capacity)?;
    let Ok(words) = first_words(for_words, capacity) else {
        discard(slots);
        return Err(AllocError);
    };
    let (table, seat) = table_of(alloc, words.as_slice(), slots, &capacity)?;
    Ok((
        SharedTable {
            table,
            slots: capacity,
        },
        seat,
    ))
}

/// What is left when the only party ends the table: a queue with one owner, in the same memory.
pub fn end_ring<T, A: Allocator>(
    ring: SharedTable<T, Rings, A>,
    seat: Seat<Option<T>, CallState<T>>,
) -> OwnRing<T, A>
    requires table { seat.table_id ≡ ring.table.shared.table_id }
    requires alone { IsSeatAlone seat.me.0 }
    ensures { IsIdle result × IsShown (ring_owned result).queue (after (Some ring.table.shared.table_id.slots) seat.me.0.known.seen) × IsWhole (view_of seat.me.0.known) }
{
    let SharedTable { table, slots } = ring;
    let memory = table.close_with(seat);
    OwnRing {
        capacity: slots,
        memory,
    }
}

/// The tail, by a load without a seat, which tells nothing of the history.
pub fn peek_tail<T, A: Allocator>(ring: &SharedTable<T, Rings, A>) -> u64 {
    ring.table.shared.peek(TAIL)
}

/// The head, by such a load.
pub fn peek_head<T, A: Allocator>(ring: &SharedTable<T, Rings, A>) -> u64 {
    ring.table.shared.peek(HEAD)
}
