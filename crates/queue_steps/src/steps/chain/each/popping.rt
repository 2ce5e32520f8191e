//! The steps of a pop from a chain of blocks.
ghost use Rattle.std.specs.Prelude.{◌≡◌, ◌==◌, ◌+◌, ◌%◌, ◌<◌, nat_lt, Some, IsSome, true, false};
ghost use Rattle.queue_steps.specs.Words.{IsWord, position_of};
ghost use Rattle.queue_steps.specs.ChainWords.{offset_of};
ghost use Rattle.queue_steps.specs.declared.steps.types.Answer.TheVariants.{Found, Done};
ghost use Rattle.queue_steps.specs.ChainNext.{at, chain_head_found, head_block_found, chain_pop_tail_found, takes, awaits, follows, followed, walks, walks_on, chain_next, FitsChain};
ghost use Rattle.queue_steps.specs.CommonNext.{is_chain_common, is_chain_passing};
ghost use Rattle.queue_steps.specs.CallAt.{is_chain_pop};

use crate::errors::PopError;
use crate::model::Reply;
use crate::sizes::{BLOCK_POSITIONS, BLOCK_SLOTS};
use crate::steps::chain::each::{head_at, load, offset, step};
use crate::steps::{
    Answer, ChainLocal, DESTROY, Link, MARK, Next, Op, READ, TAIL_STEP, Touch, Word,
};
use crate::words::{is_marked, position_of};

/// Reads the poppers' block (V2).
#[inline(always)]
pub fn read_block<B: Copy>(head: u64) -> Next<B>
    ensures { result ≡ at (ChainLocal.PopBlock head) Touch.Nothing (Op.LoadLink Link.HeadBlock) }
{
    step(
        ChainLocal::PopBlock(head),
        Touch::Nothing,
        Op::LoadLink(Link::HeadBlock),
    )
}

/// What follows a head that a pop found.
#[inline]
pub fn after_head<B: Copy>(head: u64) -> Next<B>
    ensures { result ≡ chain_head_found head }
{
    if offset(head) == BLOCK_SLOTS {
        load(ChainLocal::PopHead, Word::Head)
    } else {
        read_block(head)
    }
}

/// Exchanges the head for this word (V4).
#[inline(always)]
pub fn take<B: Copy>(head: u64, block: B, new: u64) -> Next<B>
    ensures { result ≡ takes head block new }
{
    step(
        ChainLocal::Taking(head, block),
        Touch::Nothing,
        Op::Exchange(Word::Head, head, new),
    )
}

/// What follows the poppers' block: where it may be the last, the tail tells whether the queue is empty.
#[inline(always)]
pub fn after_head_block<B: Copy>(head: u64, block: Option<B>) -> Next<B>
    requires word { IsWord head }
    requires shown { head % 2 ≡ 1 → IsSome block }
    ensures { result ≡ head_block_found head block }
{
    if is_marked(head) {
        match block {
            Some(block) => take(head, block, head + TAIL_STEP),
            None => unreachable!(),
        }
    } else {
        load(ChainLocal::PopTail(head, block), Word::Tail)
    }
}

/// What follows the tail that a pop found which is not that of an empty queue: where it is in another block, the head's block is not the last, and the new head says so.
#[inline(always)]
pub fn take_before<B: Copy>(head: u64, block: B, tail: u64) -> Next<B>
    requires word { IsWord head }
    requires some { (position_of tail == position_of head) ≡ false }
    ensures { result ≡ chain_pop_tail_found head (Some block) tail }
{
    if position_of(tail) / BLOCK_POSITIONS == position_of(head) / BLOCK_POSITIONS {
        take(head, block, head + TAIL_STEP)
    } else {
        take(head, block, head + TAIL_STEP + MARK)
    }
}

/// What follows the tail that a pop found which is that of an empty queue, or was there before any block.
#[inline]
pub fn after_pop_tail<B: Copy>(head: u64, block: Option<B>, tail: u64) -> Next<B>
    requires { (IsSome block → (position_of tail == position_of head) ≡ true) }
    ensures { result ≡ chain_pop_tail_found head block tail }
{
    if position_of(tail) != position_of(head) {
        return load(ChainLocal::PopHead, Word::Head);
    }
    let why = if is_marked(tail) {
        PopError::Closed
    } else {
        PopError::Empty
    };
    Next::Reply(Reply::Pop(Err(why)), None)
}

/// Reads the state of the head's slot (V9).
#[inline]
pub fn await_item<B: Copy>(head: u64, block: B) -> Next<B>
    ensures { result ≡ awaits head block }
{
    load(
        ChainLocal::Awaiting(head, block),
        Word::State(block, offset(head) as usize),
    )
}

/// Reads the block after this one (V5).
#[inline]
pub fn follow<B: Copy>(head: u64, block: B) -> Next<B>
    ensures { result ≡ follows head block }
{
    step(
        ChainLocal::Following(head, block),
        Touch::Nothing,
        Op::LoadLink(Link::Next(block)),
    )
}

/// Reads the block after the next one, which has to be there before the poppers enter it (V6).
#[inline(always)]
pub fn peek<B: Copy>(head: u64, block: B, after: B) -> Next<B>
    ensures { result ≡ followed head block (Some after) }
{
    step(
        ChainLocal::Peeking(head, block, after),
        Touch::Nothing,
        Op::LoadLink(Link::Next(after)),
    )
}

/// Reads the state of this slot of a passed block, in the walk over it (W1).
#[inline]
pub fn walk<B: Copy>(block: B, slot: u64, touch: Touch) -> Next<B>
    ensures { result ≡ walks block slot touch }
{
    step(
        ChainLocal::Walking(block, slot),
        touch,
        Op::Load(Word::State(block, slot as usize)),
    )
}

/// Whether there is another slot that a walk looks at after this one.
#[inline(always)]
pub fn goes_on(slot: u64) -> bool
    requires { slot < BLOCK_SLOTS }
    ensures { result ≡ nat_lt (slot + 2) BLOCK_SLOTS }
{
    slot + 2 < BLOCK_SLOTS
}

/// The walk goes on after this slot; past the last one that others read, the block is given up.
#[inline]
pub fn walk_on<B: Copy>(block: B, slot: u64) -> Next<B>
    requires { slot < BLOCK_SLOTS }
    ensures { result ≡ walks_on block slot }
{
    if goes_on(slot) {
        walk(block, slot + 1, Touch::Nothing)
    } else {
        Next::Reply(Reply::Pop(Ok(())), Some(block))
    }
}

/// What follows the state of a slot of a passed block: where it is not read yet, it is marked for its reader (W2).
#[inline]
pub fn after_look<B: Copy>(block: B, slot: u64, state: u64) -> Next<B>
    requires { slot < BLOCK_SLOTS }
    ensures { result ≡ chain_next (ChainLocal.Walking block slot) (Found state) }
{
    if state & READ != 0 {
        walk_on(block, slot)
    } else {
        step(
            ChainLocal::Destroying(block, slot),
            Touch::Nothing,
            Op::Or(Word::State(block, slot as usize), DESTROY),
        )
    }
}

/// What follows that mark: the slot's reader goes on with the walk, unless the slot was read before.
#[inline]
pub fn after_mark<B: Copy>(block: B, slot: u64, state: u64) -> Next<B>
    requires { slot < BLOCK_SLOTS }
    ensures { result ≡ chain_next (ChainLocal.Destroying block slot) (Found state) }
{
    if state & READ != 0 {
        walk_on(block, slot)
    } else {
        Next::Reply(Reply::Pop(Ok(())), None)
    }
}

/// Empties the head's slot and marks it as read (V10).
#[inline(always)]
pub fn read<B: Copy>(head: u64, block: B) -> Next<B>
    ensures { result ≡ at (ChainLocal.Reading block (offset_of head)) (Touch.Take (offset_of head)) (Op.Or (Word.State block (offset_of head)) READ) }
{
    let slot = offset(head);
    step(
        ChainLocal::Reading(block, slot),
        Touch::Take(slot as usize),
        Op::Or(Word::State(block, slot as usize), READ),
    )
}

/// Shows the next block to the poppers (V7).
#[inline(always)]
pub fn pass<B: Copy>(head: u64, block: B, after: B, has_more: bool) -> Next<B>
    ensures { result ≡ at (ChainLocal.Passing head block has_more) Touch.Nothing (Op.StoreLink Link.HeadBlock after) }
{
    step(
        ChainLocal::Passing(head, block, has_more),
        Touch::Nothing,
        Op::StoreLink(Link::HeadBlock, after),
    )
}

/// Moves the head on to the next block (V8).
#[inline(always)]
pub fn enter<B: Copy>(head: u64, block: B, has_more: bool) -> Next<B>
    requires { IsWord head }
    ensures { result ≡ chain_next (ChainLocal.Passing head block has_more) Done }
{
    step(
        ChainLocal::Entering(head, block),
        Touch::Nothing,
        Op::Store(Word::Head, head_at(position_of(head) + 2, has_more)),
    )
}
