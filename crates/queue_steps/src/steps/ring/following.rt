//! Which step follows on a ring.
ghost use Rattle.std.specs.Prelude.{◌≡◌, true, false};
ghost use Rattle.queue_steps.specs.RingNext.{ring_next, FitsRing};
ghost use Rattle.queue_steps.specs.CallAt.{is_ring_push, is_ring_pop, is_ring_rest};
ghost use Rattle.queue_steps.specs.CommonNext.{is_ring_common};
ghost use Rattle.queue_steps.specs.Words.{IsRing};

use crate::model::Reply;
use crate::steps::ring::each::{closed, load, looking, popping, pushed, pushing};
use crate::steps::{Answer, Next, RingLocal, Word};
use crate::words::{is_marked, position_of};

/// Whether `next_common` tells the step that follows.
#[inline(always)]
pub(crate) fn is_common<B: Copy>(cap: u64, local: &RingLocal, answer: &Answer<B>) -> bool
    requires { FitsRing cap local.now answer.now }
    ensures { result ≡ is_ring_common local.now answer.now }
{
    let _ = cap;
    match (local, answer) {
        (RingLocal::PushTail(_), Answer::Found(tail)) => pushing::is_open_below_limit(*tail),
        (RingLocal::PushStamp(_, tail), Answer::Found(stamp)) => *stamp == position_of(*tail),
        (RingLocal::Claiming(_, tail), Answer::Found(found)) => *found == *tail,
        (RingLocal::Filling(_), Answer::Done) => true,
        (RingLocal::Swapping, Answer::Done) => true,
        (RingLocal::PopHead, Answer::Found(_)) => true,
        (RingLocal::PopStamp(head), Answer::Found(stamp)) => *stamp == *head + 1,
        (RingLocal::Taking(head), Answer::Found(found)) => *found == *head,
        (RingLocal::Emptying, Answer::Done) => true,
        _ => false,
    }
}

/// What follows the answer to the last step, where it is a common one.
#[inline(always)]
pub(crate) fn next_common<B: Copy>(cap: u64, local: RingLocal, answer: Answer<B>) -> Next<B>
    requires ring { IsRing cap }
    requires fits { FitsRing cap local answer }
    requires common { is_ring_common local answer ≡ true }
    ensures { result ≡ ring_next cap local answer }
{
    match (local, answer) {
        (RingLocal::PushTail(push), Answer::Found(tail)) => pushing::read_stamp(cap, push, tail),
        (RingLocal::PushStamp(push, tail), Answer::Found(_)) => pushing::claim(push, tail),
        (RingLocal::Claiming(push, tail), Answer::Found(_)) => pushing::fill(cap, push, tail),
        (RingLocal::Filling(push), Answer::Done) => Next::Reply(pushed(push), None),
        (RingLocal::Swapping, Answer::Done) => Next::Reply(Reply::ForcePush(Ok(Some(()))), None),
        (RingLocal::PopHead, Answer::Found(head)) => popping::after_head(cap, head),
        (RingLocal::PopStamp(head), Answer::Found(_)) => popping::take(head),
        (RingLocal::Taking(head), Answer::Found(_)) => popping::empty(cap, head),
        (RingLocal::Emptying, Answer::Done) => Next::Reply(Reply::Pop(Ok(())), None),
        _ => unreachable!(),
    }
}

/// What follows the answer to the last step of a push, where it is no common one.
#[inline(always)]
fn next_push<B: Copy>(cap: u64, local: RingLocal, answer: Answer<B>) -> Next<B>
    requires ring { IsRing cap }
    requires fits { FitsRing cap local answer }
    requires push { is_ring_push local ≡ true }
    requires other { is_ring_common local answer ≡ false }
    ensures { result ≡ ring_next cap local answer }
{
    match (local, answer) {
        (RingLocal::PushTail(push), Answer::Found(tail)) => pushing::turn_away(push, tail),
        (RingLocal::PushStamp(push, tail), Answer::Found(stamp)) => {
            pushing::after_full_slot(cap, push, tail, stamp)
        }
        (RingLocal::Claiming(push, _), Answer::Found(tail)) => pushing::after_tail(cap, push, tail),
        (RingLocal::PushHead(tail), Answer::Found(head)) => pushing::after_push_head(
            cap, tail, head,
        ),
        (RingLocal::Displacing(tail), Answer::Found(head)) => pushing::after_displacing(
            cap, tail, head,
        ),
        (RingLocal::Arriving(tail), Answer::Found(_)) => pushing::swap(cap, tail),
        (RingLocal::ClosingAtLimit(push), Answer::Found(_)) => Next::Reply(closed(push), None),
        _ => unreachable!(),
    }
}

/// What follows the answer to the last step of a pop, where it is no common one.
#[inline(always)]
fn next_pop<B: Copy>(cap: u64, local: RingLocal, answer: Answer<B>) -> Next<B>
    requires ring { IsRing cap }
    requires fits { FitsRing cap local answer }
    requires pop { is_ring_pop local ≡ true }
    requires other { is_ring_common local answer ≡ false }
    ensures { result ≡ ring_next cap local answer }
{
    match (local, answer) {
        (RingLocal::PopStamp(head), Answer::Found(stamp)) => popping::after_empty_slot(head, stamp),
        (RingLocal::Taking(_), Answer::Found(head)) => popping::after_moved_head(cap, head),
        (RingLocal::PopTail(head), Answer::Found(tail)) => popping::after_pop_tail(head, tail),
        _ => unreachable!(),
    }
}

/// What follows the answer to the last step.
#[inline(always)]
fn next_look<B: Copy>(cap: u64, local: RingLocal, answer: Answer<B>) -> Next<B>
    requires ring { IsRing cap }
    requires fits { FitsRing cap local answer }
    requires rest { is_ring_rest local ≡ true }
    ensures { result ≡ ring_next cap local answer }
{
    match (local, answer) {
        (RingLocal::CountTail(look), Answer::Found(tail)) => {
            load(RingLocal::CountHead(look, tail), Word::Head)
        }
        (RingLocal::CountHead(look, tail), Answer::Found(head)) => {
            load(RingLocal::CountAgain(look, tail, head), Word::Tail)
        }
        (RingLocal::CountAgain(look, tail, head), Answer::Found(again)) => {
            looking::after_count(cap, look, tail, head, again)
        }
        (RingLocal::EmptyHead, Answer::Found(head)) => {
            load(RingLocal::EmptyTail(head), Word::Tail)
        }
        (RingLocal::EmptyTail(head), Answer::Found(tail)) => {
            Next::Reply(Reply::IsEmpty(position_of(tail) == head), None)
        }
        (RingLocal::FullTail, Answer::Found(tail)) => {
            load(RingLocal::FullHead(tail), Word::Head)
        }
        (RingLocal::FullHead(tail), Answer::Found(head)) => {
            Next::Reply(Reply::IsFull(head + cap == position_of(tail)), None)
        }
        (RingLocal::Closing, Answer::Found(tail)) => {
            Next::Reply(Reply::Close(!is_marked(tail)), None)
        }
        (RingLocal::ClosedTail, Answer::Found(tail)) => {
            Next::Reply(Reply::IsClosed(is_marked(tail)), None)
        }
        _ => unreachable!(),
    }
}

/// What follows the answer to the last step, where it is no common one.
#[inline(always)]
pub(crate) fn next_other<B: Copy>(cap: u64, local: RingLocal, answer: Answer<B>) -> Next<B>
    requires ring { IsRing cap }
    requires fits { FitsRing cap local answer }
    requires other { is_ring_common local answer ≡ false }
    ensures { result ≡ ring_next cap local answer }
{
    match local {
        RingLocal::PushTail(_)
        | RingLocal::PushStamp(_, _)
        | RingLocal::Claiming(_, _)
        | RingLocal::Filling(_)
        | RingLocal::PushHead(_)
        | RingLocal::Displacing(_)
        | RingLocal::Arriving(_)
        | RingLocal::Swapping
        | RingLocal::ClosingAtLimit(_) => next_push(cap, local, answer),
        RingLocal::PopHead
        | RingLocal::PopStamp(_)
        | RingLocal::Taking(_)
        | RingLocal::Emptying
        | RingLocal::PopTail(_) => next_pop(cap, local, answer),
        RingLocal::CountTail(_)
        | RingLocal::CountHead(_, _)
        | RingLocal::CountAgain(_, _, _)
        | RingLocal::EmptyHead
        | RingLocal::EmptyTail(_)
        | RingLocal::FullTail
        | RingLocal::FullHead(_)
        | RingLocal::Closing
        | RingLocal::ClosedTail => next_look(cap, local, answer),
    }
}
