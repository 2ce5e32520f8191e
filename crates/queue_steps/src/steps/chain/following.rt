//! Which step follows on a chain of blocks.
ghost use Rattle.std.specs.Prelude.{◌≡◌, true, false};
ghost use Rattle.queue_steps.specs.CallAt.{is_chain_push, is_chain_pop, is_chain_rest};
ghost use Rattle.queue_steps.specs.CommonNext.{is_chain_common, is_chain_walk, is_chain_passing};
ghost use Rattle.queue_steps.specs.ChainNext.{chain_next, FitsChain};

use crate::model::Reply;
use crate::sizes::BLOCK_SLOTS;
use crate::steps::chain::each::{is_last, load, looking, offset, popping, pushing, settle};
use crate::steps::ring::each::{closed, pushed};
use crate::steps::{Answer, ChainLocal, DESTROY, Next, READ, Touch, WRITE, Word};
use crate::words::{is_marked, position_of};

/// Whether `next_common` tells the step that follows.
#[inline(always)]
pub(crate) fn is_common<B: Copy>(local: &ChainLocal<B>, answer: &Answer<B>) -> bool
    requires { FitsChain local.now answer.now }
    ensures { result ≡ is_chain_common local.now answer.now }
{
    match (local, answer) {
        (ChainLocal::PushTail(_, _), Answer::Found(tail)) => pushing::is_open_below_limit(*tail),
        (ChainLocal::PushBlock(_, tail, spare), Answer::Linked(Some(_))) => {
            pushing::needs_no_request(*tail, spare)
        }
        (ChainLocal::Claiming(_, tail, _, _), Answer::Found(found)) => {
            *found == *tail && !is_last(*tail)
        }
        (ChainLocal::Writing(_, _), Answer::Found(_)) => true,
        (ChainLocal::PopHead, Answer::Found(head)) => offset(*head) != BLOCK_SLOTS,
        (ChainLocal::PopBlock(_), Answer::Linked(_)) => true,
        (ChainLocal::PopTail(head, Some(_)), Answer::Found(tail)) => position_of(*tail)
            != position_of(*head),
        (ChainLocal::Taking(head, _), Answer::Found(found)) => {
            *found == *head && !is_last(*head)
        }
        (ChainLocal::Awaiting(head, _), Answer::Found(state)) => {
            *state & WRITE != 0 && !is_last(*head)
        }
        (ChainLocal::Reading(_, _), Answer::Found(state)) => *state & DESTROY == 0,
        _ => false,
    }
}

/// What follows the answer to the last step, where it is a common one.
#[inline(always)]
pub(crate) fn next_common<B: Copy>(local: ChainLocal<B>, answer: Answer<B>) -> Next<B>
    requires fits { FitsChain local answer }
    requires common { is_chain_common local answer ≡ true }
    ensures { result ≡ chain_next local answer }
{
    match (local, answer) {
        (ChainLocal::PushTail(push, spare), Answer::Found(tail)) => pushing::read_block(
            push, tail, spare,
        ),
        (ChainLocal::PushBlock(push, tail, spare), Answer::Linked(Some(block))) => {
            pushing::claim(push, tail, block, spare)
        }
        (ChainLocal::Claiming(push, tail, block, spare), Answer::Found(_)) => pushing::write(
            push, tail, block, spare,
        ),
        (ChainLocal::Writing(push, spare), Answer::Found(_)) => Next::Reply(pushed(push), spare),
        (ChainLocal::PopHead, Answer::Found(head)) => popping::read_block(head),
        (ChainLocal::PopBlock(head), Answer::Linked(block)) => popping::after_head_block(
            head, block,
        ),
        (ChainLocal::PopTail(head, Some(block)), Answer::Found(tail)) => popping::take_before(
            head, block, tail,
        ),
        (ChainLocal::Taking(head, block), Answer::Found(_)) => popping::await_item(head, block),
        (ChainLocal::Awaiting(head, block), Answer::Found(_)) => popping::read(head, block),
        (ChainLocal::Reading(_, _), Answer::Found(_)) => Next::Reply(Reply::Pop(Ok(())), None),
        _ => unreachable!(),
    }
}

/// Whether the walk over a block goes on, as `next_walk` tells.
#[inline(always)]
pub(crate) fn is_walk<B: Copy>(local: &ChainLocal<B>, answer: &Answer<B>) -> bool
    requires { FitsChain local.now answer.now }
    ensures { result ≡ is_chain_walk local.now answer.now }
{
    match (local, answer) {
        (ChainLocal::Walking(_, slot), Answer::Found(state)) => {
            *state & READ != 0 && popping::goes_on(*slot)
        }
        _ => false,
    }
}

/// Whether the call passes from block to block, as `next_passing` tells where the step is no common one.
#[inline(always)]
pub(crate) fn is_passing<B: Copy>(local: &ChainLocal<B>, answer: &Answer<B>) -> bool
    requires { FitsChain local.now answer.now }
    ensures { result ≡ is_chain_passing local.now answer.now }
{
    match (local, answer) {
        (ChainLocal::PushBlock(_, _, _), Answer::Linked(Some(_))) => true,
        (ChainLocal::Asking(_, _, Some(_)), Answer::Granted(_)) => true,
        (ChainLocal::Claiming(_, tail, _, _), Answer::Found(found)) => *found == *tail,
        (ChainLocal::Laying(_, _, _, _), Answer::Done) => true,
        (ChainLocal::Opening(_, _, _, _), Answer::Found(_)) => true,
        (ChainLocal::Chaining(_, _, _, _), Answer::Done) => true,
        (ChainLocal::Taking(head, _), Answer::Found(found)) => *found == *head,
        (ChainLocal::Following(_, _), Answer::Linked(Some(_))) => true,
        (ChainLocal::Peeking(_, _, _), Answer::Linked(_)) => true,
        (ChainLocal::Passing(_, _, _), Answer::Done) => true,
        (ChainLocal::Entering(_, _), Answer::Done) => true,
        (ChainLocal::Awaiting(_, _), Answer::Found(state)) => *state & WRITE != 0,
        _ => false,
    }
}

/// What follows the answer to the last step of a call that passes from block to block.
#[inline(always)]
pub(crate) fn next_passing<B: Copy>(local: ChainLocal<B>, answer: Answer<B>) -> Next<B>
    requires fits { FitsChain local answer }
    requires other { is_chain_common local answer ≡ false }
    requires passing { is_chain_passing local answer ≡ true }
    ensures { result ≡ chain_next local answer }
{
    match (local, answer) {
        (ChainLocal::PushBlock(push, tail, _), Answer::Linked(Some(block))) => pushing::ask(
            push,
            tail,
            Some(block),
        ),
        (ChainLocal::Asking(push, tail, Some(block)), Answer::Granted(fresh)) => {
            pushing::after_spare(push, tail, block, fresh)
        }
        (ChainLocal::Claiming(push, tail, block, spare), Answer::Found(found)) => {
            pushing::after_last_claim(push, tail, block, spare, found)
        }
        (ChainLocal::Laying(push, tail, block, fresh), Answer::Done) => pushing::open(
            push, tail, block, fresh,
        ),
        (ChainLocal::Opening(push, tail, block, fresh), Answer::Found(_)) => pushing::link(
            push, tail, block, fresh,
        ),
        (ChainLocal::Chaining(push, tail, block, _), Answer::Done) => pushing::write(
            push, tail, block, None,
        ),
        (ChainLocal::Taking(head, block), Answer::Found(_)) => popping::follow(head, block),
        (ChainLocal::Following(head, block), Answer::Linked(Some(after))) => {
            popping::peek(head, block, after)
        }
        (ChainLocal::Peeking(head, block, after), Answer::Linked(further)) => popping::pass(
            head,
            block,
            after,
            further.is_some(),
        ),
        (ChainLocal::Passing(head, block, more), Answer::Done) => popping::enter(head, block, more),
        (ChainLocal::Entering(head, block), Answer::Done) => popping::await_item(head, block),
        (ChainLocal::Awaiting(head, block), Answer::Found(_)) => popping::walk(
            block,
            0,
            Touch::Take(offset(head) as usize),
        ),
        _ => unreachable!(),
    }
}

/// What follows the answer to the last step of a walk that goes on.
#[inline(always)]
pub(crate) fn next_walk<B: Copy>(local: ChainLocal<B>, answer: Answer<B>) -> Next<B>
    requires fits { FitsChain local answer }
    requires walk { is_chain_walk local answer ≡ true }
    ensures { result ≡ chain_next local answer }
{
    match (local, answer) {
        (ChainLocal::Walking(block, slot), Answer::Found(_)) => popping::walk_on(block, slot),
        _ => unreachable!(),
    }
}

/// What follows the answer to the last step of a push, where it is no common one and passes no block.
#[inline(always)]
fn next_push<B: Copy>(local: ChainLocal<B>, answer: Answer<B>) -> Next<B>
    requires fits { FitsChain local answer }
    requires push { is_chain_push local ≡ true }
    requires other { is_chain_common local answer ≡ false }
    requires stays { is_chain_passing local answer ≡ false }
    ensures { result ≡ chain_next local answer }
{
    match (local, answer) {
        (ChainLocal::PushTail(push, spare), Answer::Found(tail)) => {
            pushing::turn_away(push, tail, spare)
        }
        (ChainLocal::PushBlock(push, tail, _), Answer::Linked(None)) => pushing::ask(
            push, tail, None,
        ),
        (ChainLocal::Asking(push, _, _), Answer::Refused) => Next::Reply(
            pushing::no_memory(push),
            None,
        ),
        (ChainLocal::Asking(push, tail, None), Answer::Granted(fresh)) => {
            pushing::install(push, tail, fresh)
        }
        (ChainLocal::Installing(push, tail, fresh), Answer::Linked(before)) => {
            pushing::after_install(push, tail, fresh, before)
        }
        (ChainLocal::Showing(push, tail, block), Answer::Done) => {
            pushing::claim(push, tail, block, None)
        }
        (ChainLocal::Claiming(push, _, _, spare), Answer::Found(found)) => {
            pushing::after_tail(push, found, spare)
        }
        (ChainLocal::ClosingAtLimit(push, spare), Answer::Found(_)) => {
            Next::Reply(closed(push), spare)
        }
        _ => unreachable!(),
    }
}

/// What follows the answer to the last step of a pop, where it is no common one and passes no block.
#[inline(always)]
fn next_pop<B: Copy>(local: ChainLocal<B>, answer: Answer<B>) -> Next<B>
    requires fits { FitsChain local answer }
    requires pop { is_chain_pop local ≡ true }
    requires other { is_chain_common local answer ≡ false }
    requires stays { is_chain_passing local answer ≡ false }
    ensures { result ≡ chain_next local answer }
{
    match (local, answer) {
        (ChainLocal::PopHead, Answer::Found(head)) => popping::after_head(head),
        (ChainLocal::PopTail(head, block), Answer::Found(tail)) => {
            popping::after_pop_tail(head, block, tail)
        }
        (ChainLocal::Taking(_, _), Answer::Found(found)) => popping::after_head(found),
        (ChainLocal::Following(head, block), Answer::Linked(None)) => popping::follow(head, block),
        (ChainLocal::Awaiting(head, block), Answer::Found(_)) => popping::await_item(head, block),
        (ChainLocal::Reading(block, slot), Answer::Found(_)) => popping::walk_on(block, slot),
        (ChainLocal::Walking(block, slot), Answer::Found(state)) => {
            popping::after_look(block, slot, state)
        }
        (ChainLocal::Destroying(block, slot), Answer::Found(state)) => {
            popping::after_mark(block, slot, state)
        }
        _ => unreachable!(),
    }
}

/// What follows the answer to the last step.
#[inline(always)]
fn next_look<B: Copy>(local: ChainLocal<B>, answer: Answer<B>) -> Next<B>
    requires fits { FitsChain local answer }
    requires rest { is_chain_rest local ≡ true }
    ensures { result ≡ chain_next local answer }
{
    match (local, answer) {
        (ChainLocal::CountTail(look), Answer::Found(tail)) => {
            load(ChainLocal::CountHead(look, tail), Word::Head)
        }
        (ChainLocal::CountHead(look, tail), Answer::Found(head)) => {
            load(ChainLocal::CountAgain(look, tail, head), Word::Tail)
        }
        (ChainLocal::CountAgain(look, tail, head), Answer::Found(again)) => {
            looking::after_count(look, tail, head, again)
        }
        (ChainLocal::EmptyHead, Answer::Found(head)) => {
            load(ChainLocal::EmptyTail(head), Word::Tail)
        }
        (ChainLocal::EmptyTail(head), Answer::Found(tail)) => {
            let is_empty = settle(position_of(tail)) == settle(position_of(head));
            Next::Reply(Reply::IsEmpty(is_empty), None)
        }
        (ChainLocal::Closing, Answer::Found(tail)) => {
            Next::Reply(Reply::Close(!is_marked(tail)), None)
        }
        (ChainLocal::ClosedTail, Answer::Found(tail)) => {
            Next::Reply(Reply::IsClosed(is_marked(tail)), None)
        }
        _ => unreachable!(),
    }
}

/// What follows the answer to the last step, where it is no common one and passes no block.
#[inline(always)]
pub(crate) fn next_other<B: Copy>(local: ChainLocal<B>, answer: Answer<B>) -> Next<B>
    requires fits { FitsChain local answer }
    requires other { is_chain_common local answer ≡ false }
    requires stays { is_chain_passing local answer ≡ false }
    ensures { result ≡ chain_next local answer }
{
    match local {
        ChainLocal::PushTail(_, _)
        | ChainLocal::PushBlock(_, _, _)
        | ChainLocal::Asking(_, _, _)
        | ChainLocal::Installing(_, _, _)
        | ChainLocal::Showing(_, _, _)
        | ChainLocal::Claiming(_, _, _, _)
        | ChainLocal::Laying(_, _, _, _)
        | ChainLocal::Opening(_, _, _, _)
        | ChainLocal::Chaining(_, _, _, _)
        | ChainLocal::Writing(_, _)
        | ChainLocal::ClosingAtLimit(_, _) => next_push(local, answer),
        ChainLocal::PopHead
        | ChainLocal::PopBlock(_)
        | ChainLocal::PopTail(_, _)
        | ChainLocal::Taking(_, _)
        | ChainLocal::Following(_, _)
        | ChainLocal::Peeking(_, _, _)
        | ChainLocal::Passing(_, _, _)
        | ChainLocal::Entering(_, _)
        | ChainLocal::Awaiting(_, _)
        | ChainLocal::Reading(_, _)
        | ChainLocal::Walking(_, _)
        | ChainLocal::Destroying(_, _) => next_pop(local, answer),
        ChainLocal::CountTail(_)
        | ChainLocal::CountHead(_, _)
        | ChainLocal::CountAgain(_, _, _)
        | ChainLocal::EmptyHead
        | ChainLocal::EmptyTail(_)
        | ChainLocal::Closing
        | ChainLocal::ClosedTail => next_look(local, answer),
    }
}
