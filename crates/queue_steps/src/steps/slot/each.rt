//! The steps of a queue of one slot.
ghost use Rattle.std.specs.Prelude.{◌≡◌};
ghost use Rattle.queue_steps.specs.SlotNext.{at, slot_begin, slot_next, seen_reply, unlocks, is_marked, is_pushed, P1, F1, O1, looks};

use crate::errors::{ForcePushError, PopError, PushError};
use crate::model::{CallKind, Reply, ReplyKind};
use crate::steps::{
    CLOSED, CallView, LOCKED, Local, Look, Next, Op, PUSHED, PushKind, SlotLocal, Touch, UNLOCKED,
    UNPUSHED, Word,
};

/// Whether the word is that of a closed queue.
#[inline(always)]
pub fn is_closed(word: u64) -> bool
    ensures { result ≡ is_marked word }
{
    word & CLOSED != 0
}

/// Whether the slot holds an item, or will once it is unlocked.
#[inline(always)]
pub fn is_pushed(word: u64) -> bool
    ensures { result ≡ is_pushed word }
{
    word & PUSHED != 0
}

/// Exchanges the word of an empty, unlocked slot for that of a push (P1).
#[inline(always)]
fn claim_to_push<B: Copy>() -> Next<B>
    ensures { result ≡ P1 }
{
    Next::Step(
        Local::Slot(SlotLocal::Pushing),
        Touch::Nothing,
        Op::Exchange(Word::Lock, 0, LOCKED | PUSHED),
    )
}

/// Exchanges the word last seen for that of a push (F1).
#[inline(always)]
fn claim_to_force<B: Copy>(seen: u64) -> Next<B>
    ensures { result ≡ F1 seen }
{
    Next::Step(
        Local::Slot(SlotLocal::Forcing(seen)),
        Touch::Nothing,
        Op::Exchange(Word::Lock, seen, LOCKED | PUSHED),
    )
}

/// Exchanges the word last seen for itself, locked and without its item (O1).
#[inline(always)]
fn claim_to_pop<B: Copy>(seen: u64) -> Next<B>
    ensures { result ≡ O1 seen }
{
    Next::Step(
        Local::Slot(SlotLocal::Popping(seen)),
        Touch::Nothing,
        Op::Exchange(Word::Lock, seen, (seen | LOCKED) & UNPUSHED),
    )
}

/// Loads the word (L1).
#[inline(always)]
fn look<B: Copy>(look: Look) -> Next<B>
    ensures { result ≡ looks look }
{
    Next::Step(
        Local::Slot(SlotLocal::Looking(look)),
        Touch::Nothing,
        Op::Load(Word::Lock),
    )
}

/// Touches the slot and unlocks it (P2, F2, O2).
#[inline(always)]
fn unlock<B: Copy>(local: SlotLocal, touch: Touch) -> Next<B>
    ensures { result ≡ at local touch unlocks }
{
    Next::Step(Local::Slot(local), touch, Op::And(Word::Lock, UNLOCKED))
}

/// The first step of a call.
#[inline(always)]
pub fn begin<B: Copy>(call: CallKind) -> Next<B>
    ensures { result ≡ slot_begin call }
{
    match CallView::of(call) {
        CallView::Push(PushKind::Push) => claim_to_push(),
        CallView::Push(PushKind::Force) => claim_to_force(0),
        CallView::Pop => claim_to_pop(PUSHED),
        CallView::Close => Next::Step(
            Local::Slot(SlotLocal::Closing),
            Touch::Nothing,
            Op::Or(Word::Lock, CLOSED),
        ),
        CallView::Look(taken) => look(taken),
        CallView::Capacity => Next::Reply(Reply::Capacity(Some(1)), None),
    }
}

/// What one look at the word answers.
#[inline(always)]
fn seen(look: Look, word: u64) -> ReplyKind
    ensures { result ≡ seen_reply look word }
{
    look.reply(
        Some(1),
        if is_pushed(word) { 1 } else { 0 },
        is_closed(word),
    )
}

/// What follows the word that the exchange of a push found.
#[inline(always)]
fn after_push<B: Copy>(found: u64) -> Next<B>
    ensures { result ≡ slot_next SlotLocal.Pushing found }
{
    if found == 0 {
        unlock(SlotLocal::Pushed, Touch::Put(0))
    } else if is_closed(found) {
        Next::Reply(Reply::Push(Err(PushError::Closed(()))), None)
    } else if is_pushed(found) {
        Next::Reply(Reply::Push(Err(PushError::Full(()))), None)
    } else {
        claim_to_push()
    }
}

/// What follows the word that the exchange of a forced push found.
#[inline(always)]
fn after_force<B: Copy>(seen: u64, found: u64) -> Next<B>
    ensures { result ≡ slot_next (SlotLocal.Forcing seen) found }
{
    if is_closed(found) {
        Next::Reply(Reply::ForcePush(Err(ForcePushError::Closed(()))), None)
    } else if found == seen {
        let touch = if seen == 0 {
            Touch::Put(0)
        } else {
            Touch::Swap(0)
        };
        unlock(SlotLocal::Forced(seen), touch)
    } else {
        claim_to_force(found & UNLOCKED)
    }
}

/// What follows the word that the exchange of a pop found.
#[inline(always)]
fn after_pop<B: Copy>(seen: u64, found: u64) -> Next<B>
    ensures { result ≡ slot_next (SlotLocal.Popping seen) found }
{
    if found == seen {
        unlock(SlotLocal::Popped, Touch::Take(0))
    } else if !is_pushed(found) {
        let why = if is_closed(found) {
            PopError::Closed
        } else {
            PopError::Empty
        };
        Next::Reply(Reply::Pop(Err(why)), None)
    } else {
        claim_to_pop(found & UNLOCKED)
    }
}

/// What follows the word that was found.
#[inline(always)]
pub fn next<B: Copy>(local: SlotLocal, found: u64) -> Next<B>
    ensures { result ≡ slot_next local found }
{
    match local {
        SlotLocal::Pushing => after_push(found),
        SlotLocal::Pushed => Next::Reply(Reply::Push(Ok(())), None),
        SlotLocal::Forcing(seen) => after_force(seen, found),
        SlotLocal::Forced(seen) => {
            let old = if seen == 0 { None } else { Some(()) };
            Next::Reply(Reply::ForcePush(Ok(old)), None)
        }
        SlotLocal::Popping(seen) => after_pop(seen, found),
        SlotLocal::Popped => Next::Reply(Reply::Pop(Ok(())), None),
        SlotLocal::Closing => Next::Reply(Reply::Close(!is_closed(found)), None),
        SlotLocal::Looking(look) => Next::Reply(seen(look, found), None),
    }
}
