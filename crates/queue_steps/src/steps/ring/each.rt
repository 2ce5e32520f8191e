//! The steps of a ring. `Tail` is twice the position of the next item to come, and one more once the queue is closed; `Head` is the position of the front.
//! A slot's stamp is the position for which it is free, and one more once it is filled for it.
ghost use Rattle.std.specs.Prelude.{◌≡◌, ◌%◌, ◌<◌};
ghost use Rattle.queue_steps.specs.RingNext.{at, loads, ring_look, ring_begin, closed_reply, pushed_reply};

use crate::errors::{ForcePushError, PushError};
use crate::model::{CallKind, Reply, ReplyKind};
use crate::steps::{CallView, Local, Look, MARK, Next, Op, PushKind, RingLocal, Touch, Word};

pub mod looking;
pub mod popping;
pub mod pushing;

/// The slot of a position: its remainder by the capacity, which is a mask where the capacity is a power of two.
#[inline(always)]
fn slot_of(cap: u64, position: u64) -> usize
    requires { 0 < cap }
    ensures { result ≡ position % cap }
{
    if cap.is_power_of_two() {
        (position & (cap - 1)) as usize
    } else {
        (position % cap) as usize
    }
}

/// A step, after which the call waits there.
#[inline(always)]
fn step<B: Copy>(local: RingLocal, touch: Touch, op: Op<B>) -> Next<B>
    ensures { result ≡ at local touch op }
{
    Next::Step(Local::Ring(local), touch, op)
}

/// A step that only loads a word.
#[inline(always)]
pub fn load<B: Copy>(local: RingLocal, word: Word<B>) -> Next<B>
    ensures { result ≡ loads local word }
{
    step(local, Touch::Nothing, Op::Load(word))
}

/// The first step of a look. Two loads tell whether the ring is empty or full; any other look counts the items.
#[inline(always)]
fn look<B: Copy>(look: Look) -> Next<B>
    ensures { result ≡ ring_look look }
{
    match look {
        Look::IsClosed => load(RingLocal::ClosedTail, Word::Tail),
        Look::IsEmpty => load(RingLocal::EmptyHead, Word::Head),
        Look::IsFull => load(RingLocal::FullTail, Word::Tail),
        counted => load(RingLocal::CountTail(counted), Word::Tail),
    }
}

/// The first step of a call.
#[inline(always)]
pub fn begin<B: Copy>(cap: usize, call: CallKind) -> Next<B>
    ensures { result ≡ ring_begin cap call }
{
    match CallView::of(call) {
        CallView::Push(push) => load(RingLocal::PushTail(push), Word::Tail),
        CallView::Pop => load(RingLocal::PopHead, Word::Head),
        CallView::Close => step(RingLocal::Closing, Touch::Nothing, Op::Or(Word::Tail, MARK)),
        CallView::Look(taken) => look(taken),
        CallView::Capacity => Next::Reply(Reply::Capacity(Some(cap)), None),
    }
}

/// What a push into a closed queue answers.
#[inline(always)]
pub fn closed(push: PushKind) -> ReplyKind
    ensures { result ≡ closed_reply push }
{
    match push {
        PushKind::Push => Reply::Push(Err(PushError::Closed(()))),
        PushKind::Force => Reply::ForcePush(Err(ForcePushError::Closed(()))),
    }
}

/// What a push answers that found a free slot.
#[inline(always)]
pub fn pushed(push: PushKind) -> ReplyKind
    ensures { result ≡ pushed_reply push }
{
    match push {
        PushKind::Push => Reply::Push(Ok(())),
        PushKind::Force => Reply::ForcePush(Ok(None)),
    }
}
