//! A ring of slots, each with a stamp, with one owner. Its words and slots lie in the memory of a closed table, as a ring that was shared leaves it.
ghost use Rattle.std.specs.Prelude.{◌≡◌, true, ◌+◌, ◌%◌, ◌<◌, ◌≤◌, length, slice_set, IfOk, IsErr, Some};
ghost use Rattle.std.specs.Mem.Slots.{slots_items, slots_len, IsFull};
ghost use Rattle.queue_steps.specs.LookNext.{IsLoad};
ghost use Rattle.queue_steps.specs.State.{start};
ghost use Rattle.queue_steps.specs.Words.{slot_at, IsRing};
ghost use Rattle.queue_steps.specs.declared.sizes.TheConstants.{LIMIT, MAX_CAPACITY};
ghost use Rattle.own_cells.specs.OneRing.RingCells.{stamp_at, item_at};
ghost use Rattle.own_cells.specs.OneRing.RingOpening.{IsOpening};
ghost use Rattle.own_cells.specs.OneRing.RingNew.{IsNew};
ghost use Rattle.own_cells.specs.OneRing.RingWords.{words_of};

use crate::ring::ring_words::{HEAD, TAIL, bare_words, stamp_word};
use crate::ring::vacant::{discard, empty_slots, table_of};
use atomic_table::{Closed, Table, TableRule};
use call_driver::cells::OwnCells;
use queue_steps::sizes::MAX_CAPACITY;
use queue_steps::steps::{Answer, Kind, Op, RingSteps, TAIL_STEP, Touch, Word};
use std::alloc::{AllocError, Allocator};
use std::marker::Model;
use std::mem;

/// The slots with their stamps, and the positions of the front and of the next item to come, as they lay in the table.
///
/// A contract sees the two positions, the capacity and the slots.
pub struct OwnRing<T, A: Allocator> {
    /// The number of slots.
    pub capacity: usize,
    /// The words and the slots, as they lay in the table.
    pub memory: Closed<Option<T>, A>,
    ghost full: { IsFull memory.words × IsFull memory.slots },
    ghost sized: { (slots_len memory.words ≡ words_of capacity) × (slots_len memory.slots ≡ capacity) },
}

impl<T, A: Allocator> Model for OwnRing<T, A> {
    ghost use Rattle.std.specs.Mem.Slots.{slots_items};
    ghost use Rattle.own_cells.specs.OneRing.RingCells.{RingState};
    ghost use Rattle.own_cells.specs.OneRing.RingMemory.{ring_in};

    ghost Value = { RingState T };

    ghost view = { λ r. ring_in r.capacity (slots_items r.memory.words) (slots_items r.memory.slots) };
}

unsafe impl<T: Send, A: Allocator + Send> Send for OwnRing<T, A> {}

unsafe impl<T: Sync, A: Allocator + Send + Sync> Sync for OwnRing<T, A> {}

impl<T: Drop, A: Allocator> Drop for OwnRing<T, A> {
    fn drop(self) {
        let OwnRing {
            capacity,
            mut memory,
        } = self;
        for slot in 0..capacity {
            drop(memory.take(slot));
        }
        memory.free();
    }
}

/// The first position of this slot that is not below `accepted`.
fn first_position(capacity: u64, accepted: u64, slot: u64) -> u64
    requires slot { slot < capacity }
    requires capacity { capacity ≤ MAX_CAPACITY }
    requires accepted { accepted ≤ LIMIT }
    ensures least { accepted ≤ result }
    ensures within { result < accepted + capacity }
    ensures slot { slot_at capacity result ≡ slot }
{
    let passed = accepted % capacity;
    let lap = accepted - passed;
    if slot < passed {
        lap + capacity + slot
    } else {
        lap + slot
    }
}

/// The rule of a table on which no step is done: its words are those that it was made with, and its slots are empty.
struct Untouched;

impl<T, A: Allocator> TableRule<Option<T>, (), Vec<u64, A>> for Untouched {
    ghost use Rattle.own_cells.specs.OneRing.RingOpening.{IsUntouched};

    ghost holds = { λ words. IsUntouched words.items };

    ghost first = { λ _. tt };
}

/// The words of the table of an empty open ring whose positions stand as after `accepted` items.
fn first_words<A: Allocator>(
    alloc: A,
    capacity: usize,
    accepted: u64,
) -> Result<Vec<u64, A>, AllocError>
    requires capacity { capacity ≤ MAX_CAPACITY }
    requires accepted { accepted ≤ LIMIT }
    ensures { IfOk result (λ words. IsOpening capacity accepted words.items) }
{
    let mut words = bare_words(alloc, capacity, accepted * TAIL_STEP, accepted)?;
    for slot in 0..capacity {
        words[stamp_word(slot)] = first_position(capacity as u64, accepted, slot as u64);
    }
    Ok(words)
}

/// The memory of an empty open ring whose positions stand as after `accepted` items.
fn opening_memory<T, A: Allocator + Clone>(
    alloc: A,
    capacity: usize,
    accepted: u64,
) -> Result<Closed<Option<T>, A>, AllocError>
    requires ring { IsRing capacity }
    requires accepted { accepted ≤ LIMIT }
    ensures { IfOk result (λ memory. (IsFull memory.words × IsFull memory.slots) × (slots_len memory.words ≡ words_of capacity) × (slots_len memory.slots ≡ capacity) × IsNew capacity accepted (slots_items memory.words) (slots_items memory.slots)) }
{
    let for_words = alloc.clone()?;
    let slots = empty_slots::<T, A>(alloc.clone()?, capacity)?;
    let Ok(words) = first_words(for_words, capacity, accepted) else {
        discard(slots);
        return Err(AllocError);
    };
    let (table, _seat): (Table<Option<T>, (), Vec<u64, A>, Untouched, A>, _) = table_of(
        alloc,
        words.as_slice(),
        slots,
        &words,
    )?;
    Ok(table.close())
}

impl<T, A: Allocator + Clone> OwnRing<T, A> {
    ghost use Rattle.own_cells.specs.OneRing.RingOwned.{IsIdle, ring_owned};

    /// An empty open ring whose positions stand as after `accepted` items that were accepted and taken.
    ///
    /// All its memory is asked for here.
    ///
    /// # Errors
    ///
    /// Where there is no memory. A capacity above `MAX_CAPACITY`, or one whose slots are more bytes than one allocation may have, is refused without a request.
    pub fn new(alloc: A, capacity: usize, accepted: u64) -> Result<Self, AllocError>
        requires many { 1 < capacity }
        requires below { accepted ≤ LIMIT }
        ensures idle { IfOk result (λ ring. IsIdle ring) }
        ensures empty { IfOk result (λ ring. ring_owned ring ≡ record { queue = start (Some capacity) accepted; blocks = 0 }) }
        ensures limited { MAX_CAPACITY < capacity → IsErr result }
    {
        if capacity > MAX_CAPACITY {
            return Err(AllocError);
        }
        let memory = opening_memory(alloc, capacity, accepted)?;
        Ok(OwnRing { capacity, memory })
    }
}

impl<T, A: Allocator> OwnRing<T, A> {
    ghost use Rattle.queue_steps.specs.declared.steps.types.Answer.TheVariants.{Found};
    ghost use Rattle.queue_steps.specs.declared.steps.types.Op.TheVariants.{Load, Or};
    ghost use Rattle.queue_steps.specs.declared.steps.types.Word.TheVariants.{Tail};
    ghost use Rattle.own_cells.specs.OneRing.RingCells.{ring_operable, ring_performed};

    #[inline(always)]
    pub(crate) fn head(&self) -> u64
        ensures { result ≡ self.now.head }
    {
        self.memory.word(HEAD)
    }

    #[inline(always)]
    pub(crate) fn tail(&self) -> u64
        ensures { result ≡ self.now.tail }
    {
        self.memory.word(TAIL)
    }

    #[inline(always)]
    fn stamp(&self, slot: usize) -> u64
        requires { slot < length self.now.stamps }
        ensures { result ≡ stamp_at self.now slot }
    {
        self.memory.word(stamp_word(slot))
    }

    #[inline(always)]
    fn set_head(&mut self, word: u64)
        ensures { self.new ≡ record self.old { head = word } }
    {
        self.memory.words.put(HEAD, word);
    }

    #[inline(always)]
    fn set_tail(&mut self, word: u64)
        ensures { self.new ≡ record self.old { tail = word } }
    {
        self.memory.words.put(TAIL, word);
    }

    /// Sets bits of the tail, and gives the tail before.
    #[inline(always)]
    fn mark(&mut self, bits: u64) -> u64
        ensures { (Found result, self.new) ≡ ring_performed self.old (Or Tail bits) }
    {
        let found = self.tail();
        self.set_tail(found | bits);
        found
    }

    #[inline(always)]
    fn set_stamp(&mut self, slot: usize, stamp: u64)
        requires { slot < length self.old.stamps }
        ensures { self.new ≡ record self.old { stamps = slice_set self.old.stamps slot stamp } }
    {
        self.memory.words.put(stamp_word(slot), stamp);
    }

    /// A value and a slot's content change places.
    #[inline(always)]
    fn exchange(&mut self, slot: usize, value: Option<T>) -> Option<T>
        requires { slot < length self.old.slots }
        ensures taken { result ≡ item_at self.old slot }
        ensures put { self.new ≡ record self.old { slots = slice_set self.old.slots slot value } }
    {
        let item = self.memory.slots.take(slot);
        self.memory.slots.put(slot, value);
        item
    }

    /// What a word holds.
    #[inline(always)]
    fn load(&self, word: Word<usize>) -> u64
        requires { ring_operable self.now (Load word) ≡ true }
        ensures { ring_performed self.now (Load word) ≡ (Found result, self.now) }
    {
        match word {
            Word::Tail => self.tail(),
            Word::Head => self.head(),
            Word::Stamp(i) => self.stamp(i),
            _ => unreachable!(),
        }
    }
}

impl<T, A: Allocator> OwnCells for OwnRing<T, A> {
    type Item = T;

    type Block = usize;

    type Steps = RingSteps;

    ghost use Rattle.own_cells.specs.OneRing.RingCells.{RingState, kind_of_ring, ring_can_touch, ring_touches, ring_can_perform, ring_performs, ring_can_release, ring_releases};
    ghost use Rattle.own_cells.specs.OneRing.RingOwned.{IsIdle, ring_owned};

    ghost kind_of = { kind_of_ring };

    ghost idle = { IsIdle };

    ghost owned = { ring_owned };

    ghost can_touch = { ring_can_touch };

    ghost touches = { ring_touches };

    ghost can_perform = { ring_can_perform };

    ghost performs = { ring_performs };

    ghost can_release = { ring_can_release };

    ghost releases = { ring_releases };

    ghost use Rattle.std.specs.Prelude.{refl};
    ghost use Rattle.own_cells.specs.OneRing.Laws.RingAnswers.{ring_answers, ring_stays};
    ghost use Rattle.own_cells.specs.OneRing.Laws.Sound.{ring_sound};

    ghost steps_fit = { λ ring. (ring.cap, refl) };

    ghost stays = { ring_stays };

    ghost sound = { ring_sound };

    ghost answers = { ring_answers };

    #[inline(always)]
    fn kind(&self) -> Kind {
        Kind::Bounded(self.capacity)
    }

    #[inline(always)]
    fn touch(&mut self, touch: Touch, _op: &Op<usize>, carried: &mut Option<T>) {
        match touch {
            Touch::Nothing => {}
            Touch::Put(i) | Touch::Swap(i) | Touch::Take(i) => {
                let value = mem::replace(carried, None);
                let left = self.exchange(i, value);
                let none = mem::replace(carried, left);
                let None = none else { unreachable!() };
            }
        }
    }

    #[inline(always)]
    fn perform(&mut self, op: Op<usize>) -> Answer<usize>
        requires { ring_can_perform self.old op }
        ensures { ring_performs self.old op result self.new }
    {
        match op {
            Op::Load(word) => Answer::Found(self.load(word)),
            Op::Exchange(Word::Tail, expected, new) => {
                let found = self.tail();
                if found == expected {
                    self.set_tail(new);
                }
                Answer::Found(found)
            }
            Op::Exchange(Word::Head, expected, new) => {
                let found = self.head();
                if found == expected {
                    self.set_head(new);
                }
                Answer::Found(found)
            }
            Op::Or(Word::Tail, bits) => Answer::Found(self.mark(bits)),
            Op::Add(Word::Tail, more) => {
                let found = self.tail();
                self.set_tail(found + more);
                Answer::Found(found)
            }
            Op::Store(Word::Stamp(i), stamp) => {
                self.set_stamp(i, stamp);
                Answer::Done
            }
            _ => unreachable!(),
        }
    }

    #[inline(always)]
    fn release(&mut self, _block: usize) {}

    #[inline(always)]
    fn look(&self, op: &Op<usize>) -> Answer<usize>
        requires load { IsLoad op.now }
        requires can { ring_can_perform self.now op.now }
        ensures { ring_performs self.now op.now result self.now }
    {
        match op {
            Op::Load(word) => Answer::Found(self.load(*word)),
            _ => unreachable!(),
        }
    }
}
