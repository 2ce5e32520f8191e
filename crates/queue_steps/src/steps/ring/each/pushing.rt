//! The steps of a push into a ring.
ghost use Rattle.std.specs.Prelude.{◌≡◌, ◌==◌, ℕ, true, false, ◌+◌, ◌<◌};
ghost use Rattle.queue_steps.specs.RingNext.{at, loads, ring_next, tail_found, push_stamp_found, FitsRing, FitsStamp};
ghost use Rattle.queue_steps.specs.CallAt.{is_ring_push};
ghost use Rattle.queue_steps.specs.CommonNext.{is_open_tail, is_ring_common};
ghost use Rattle.queue_steps.specs.Words.{IsRing, IsWord, position_of, slot_at, stamp_free, stamp_filled};

use crate::errors::PushError;
use crate::model::Reply;
use crate::sizes::LIMIT;
use crate::steps::ring::each::{closed, load, slot_of, step};
use crate::steps::{Answer, MARK, Next, Op, PushKind, RingLocal, TAIL_STEP, Touch, Word};
use crate::words::{is_marked, position_of};

/// Whether this tail is open and below the limit: a push that found it goes on to the tail's slot.
#[inline(always)]
pub fn is_open_below_limit(tail: u64) -> bool
    ensures { result ≡ is_open_tail tail }
{
    !is_marked(tail) && position_of(tail) != LIMIT
}

/// Reads the stamp of the tail's slot (B2).
#[inline(always)]
pub fn read_stamp<B: Copy>(cap: u64, push: PushKind, tail: u64) -> Next<B>
    requires { 0 < cap }
    ensures { result ≡ loads (RingLocal.PushStamp push tail) (Word.Stamp (slot_at cap (position_of tail))) }
{
    load(
        RingLocal::PushStamp(push, tail),
        Word::Stamp(slot_of(cap, position_of(tail))),
    )
}

/// What follows a tail behind which nothing is accepted: it is marked, or closed at the limit (BS).
#[inline]
pub fn turn_away<B: Copy>(push: PushKind, tail: u64) -> Next<B>
    requires { is_open_tail tail ≡ false }
    ensures { (n : ℕ) → result ≡ tail_found n push tail }
{
    if is_marked(tail) {
        Next::Reply(closed(push), None)
    } else {
        step(
            RingLocal::ClosingAtLimit(push),
            Touch::Nothing,
            Op::Or(Word::Tail, MARK),
        )
    }
}

/// What follows a tail that a push found in the place of another.
#[inline]
pub fn after_tail<B: Copy>(cap: u64, push: PushKind, tail: u64) -> Next<B>
    requires { 0 < cap }
    ensures { result ≡ tail_found cap push tail }
{
    if is_open_below_limit(tail) {
        read_stamp(cap, push, tail)
    } else {
        turn_away(push, tail)
    }
}

/// Exchanges the tail for the next one (B3).
#[inline(always)]
pub fn claim<B: Copy>(push: PushKind, tail: u64) -> Next<B>
    requires { IsWord tail }
    ensures { result ≡ at (RingLocal.Claiming push tail) Touch.Nothing (Op.Exchange Word.Tail tail (tail + TAIL_STEP)) }
{
    let exchange = Op::Exchange(Word::Tail, tail, tail + TAIL_STEP);
    step(RingLocal::Claiming(push, tail), Touch::Nothing, exchange)
}

/// Fills the tail's slot and stamps it (B4).
#[inline(always)]
pub fn fill<B: Copy>(cap: u64, push: PushKind, tail: u64) -> Next<B>
    requires ring { IsRing cap }
    requires word { IsWord tail }
    ensures { result ≡ at (RingLocal.Filling push) (Touch.Put (slot_at cap (position_of tail))) (Op.Store (Word.Stamp (slot_at cap (position_of tail))) (stamp_filled (position_of tail))) }
{
    let position = position_of(tail);
    let slot = slot_of(cap, position);
    let stamp = Op::Store(Word::Stamp(slot), position + 1);
    step(RingLocal::Filling(push), Touch::Put(slot), stamp)
}

/// What follows the stamp of the tail's slot where the slot is not free: an item of the lap before may stand there (B5, F5).
#[inline]
pub fn after_full_slot<B: Copy>(cap: u64, push: PushKind, tail: u64, stamp: u64) -> Next<B>
    requires ring { IsRing cap }
    requires fits { FitsStamp cap tail stamp }
    requires full { (stamp == stamp_free (position_of tail)) ≡ false }
    ensures { result ≡ push_stamp_found cap push tail stamp }
{
    let position = position_of(tail);
    if stamp + cap == position + 1 {
        match push {
            PushKind::Push => load(RingLocal::PushHead(tail), Word::Head),
            PushKind::Force => step(
                RingLocal::Displacing(tail),
                Touch::Nothing,
                Op::Exchange(Word::Head, position - cap, position - cap + 1),
            ),
        }
    } else {
        load(RingLocal::PushTail(push), Word::Tail)
    }
}

/// What follows the head that a push found whose slot is taken: the ring is full, or the push begins again.
#[inline]
pub fn after_push_head<B: Copy>(cap: u64, tail: u64, head: u64) -> Next<B>
    requires ring { IsRing cap }
    requires words { IsWord tail × IsWord head }
    ensures { result ≡ ring_next cap (RingLocal.PushHead tail) (Answer.Found head) }
{
    if head + cap == position_of(tail) {
        Next::Reply(Reply::Push(Err(PushError::Full(()))), None)
    } else {
        load(RingLocal::PushTail(PushKind::Push), Word::Tail)
    }
}

/// What follows the exchange of a head by which the front leaves: the tail moves on (F6).
#[inline]
pub fn after_displacing<B: Copy>(cap: u64, tail: u64, head: u64) -> Next<B>
    requires ring { IsRing cap }
    requires words { IsWord tail × IsWord head }
    ensures { result ≡ ring_next cap (RingLocal.Displacing tail) (Answer.Found head) }
{
    if head + cap == position_of(tail) {
        step(
            RingLocal::Arriving(tail),
            Touch::Nothing,
            Op::Add(Word::Tail, TAIL_STEP),
        )
    } else {
        load(RingLocal::PushTail(PushKind::Force), Word::Tail)
    }
}

/// Swaps the item for the front, and stamps the slot (F7).
#[inline]
pub fn swap<B: Copy>(cap: u64, tail: u64) -> Next<B>
    requires ring { IsRing cap }
    requires word { IsWord tail }
    ensures { result ≡ at RingLocal.Swapping (Touch.Swap (slot_at cap (position_of tail))) (Op.Store (Word.Stamp (slot_at cap (position_of tail))) (stamp_filled (position_of tail))) }
{
    let position = position_of(tail);
    let slot = slot_of(cap, position);
    let stamp = Op::Store(Word::Stamp(slot), position + 1);
    step(RingLocal::Swapping, Touch::Swap(slot), stamp)
}
