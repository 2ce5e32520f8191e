//! The steps of a pop from a ring.
ghost use Rattle.std.specs.Prelude.{◌≡◌, ◌==◌, true, false, ◌+◌, ◌<◌};
ghost use Rattle.queue_steps.specs.RingNext.{at, ring_next, head_found, pop_stamp_found, pop_tail_found, FitsRing};
ghost use Rattle.queue_steps.specs.CallAt.{is_ring_pop};
ghost use Rattle.queue_steps.specs.CommonNext.{is_ring_common};
ghost use Rattle.queue_steps.specs.Words.{IsRing, IsWord, slot_at, stamp_filled, stamp_emptied};

use crate::errors::PopError;
use crate::model::Reply;
use crate::steps::ring::each::{load, slot_of, step};
use crate::steps::{Answer, Next, Op, RingLocal, Touch, Word};
use crate::words::{is_marked, position_of};

/// What follows a head that a pop found: the stamp of its slot is read (O2).
#[inline(always)]
pub fn after_head<B: Copy>(cap: u64, head: u64) -> Next<B>
    requires { 0 < cap }
    ensures { result ≡ head_found cap head }
{
    load(RingLocal::PopStamp(head), Word::Stamp(slot_of(cap, head)))
}

/// Exchanges the head for the next one (O3).
#[inline(always)]
pub fn take<B: Copy>(head: u64) -> Next<B>
    requires { IsWord head }
    ensures { result ≡ at (RingLocal.Taking head) Touch.Nothing (Op.Exchange Word.Head head (head + 1)) }
{
    let exchange = Op::Exchange(Word::Head, head, head + 1);
    step(RingLocal::Taking(head), Touch::Nothing, exchange)
}

/// Empties the head's slot and stamps it (O4).
#[inline(always)]
pub fn empty<B: Copy>(cap: u64, head: u64) -> Next<B>
    requires ring { IsRing cap }
    requires word { IsWord head }
    ensures { result ≡ at RingLocal.Emptying (Touch.Take (slot_at cap head)) (Op.Store (Word.Stamp (slot_at cap head)) (stamp_emptied cap head)) }
{
    let slot = slot_of(cap, head);
    let stamp = Op::Store(Word::Stamp(slot), head + cap);
    step(RingLocal::Emptying, Touch::Take(slot), stamp)
}

/// What follows the stamp of the head's slot where the slot is not filled: where it is free for the head, the ring may be empty (O5).
#[inline]
pub fn after_empty_slot<B: Copy>(head: u64, stamp: u64) -> Next<B>
    requires { (stamp == stamp_filled head) ≡ false }
    ensures { result ≡ pop_stamp_found head stamp }
{
    if stamp == head {
        load(RingLocal::PopTail(head), Word::Tail)
    } else {
        load(RingLocal::PopHead, Word::Head)
    }
}

/// What follows the tail that a pop found after an empty slot.
#[inline]
pub fn after_pop_tail<B: Copy>(head: u64, tail: u64) -> Next<B>
    ensures { result ≡ pop_tail_found head tail }
{
    if position_of(tail) != head {
        return load(RingLocal::PopHead, Word::Head);
    }
    let why = if is_marked(tail) {
        PopError::Closed
    } else {
        PopError::Empty
    };
    Next::Reply(Reply::Pop(Err(why)), None)
}

/// What follows the exchange of a head that another call had moved: the pop goes on at the head that it found.
#[inline(always)]
pub fn after_moved_head<B: Copy>(cap: u64, found: u64) -> Next<B>
    requires { 0 < cap }
    ensures { result ≡ head_found cap found }
{
    after_head(cap, found)
}
