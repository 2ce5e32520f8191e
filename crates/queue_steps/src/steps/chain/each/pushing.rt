//! The steps of a push into a chain of blocks.
ghost use Rattle.std.specs.Prelude.{◌≡◌, ◌==◌, ◌&&◌, ◌||◌, not, is_some, Some, None, true, false};
ghost use Rattle.queue_steps.specs.Words.{IsWord};
ghost use Rattle.queue_steps.specs.CommonNext.{is_chain_common, is_chain_passing, is_roomy_tail};
ghost use Rattle.queue_steps.specs.CallAt.{is_chain_push};
ghost use Rattle.queue_steps.specs.declared.steps.types.Answer.TheVariants.{Found, Done};
ghost use Rattle.queue_steps.specs.ChainNext.{at, asks, lays, chain_tail_found, granted, claims, installed, writes, gives_up, is_last_slot, chain_next, FitsChain};

use crate::errors::{ForcePushError, PushError};
use crate::model::{Reply, ReplyKind};
use crate::sizes::{BLOCK_SLOTS, LIMIT};
use crate::steps::chain::each::{is_last, items, load, offset, step};
use crate::steps::ring::each::closed;
use crate::steps::{
    Answer, ChainLocal, Link, MARK, Next, Op, PushKind, TAIL_STEP, Touch, WRITE, Word,
};
use crate::words::{is_marked, position_of};

/// What a push answers that was refused a block.
#[inline]
pub fn no_memory(push: PushKind) -> ReplyKind
    ensures { result ≡ gives_up push }
{
    match push {
        PushKind::Push => Reply::Push(Err(PushError::NoMemory(()))),
        PushKind::Force => Reply::ForcePush(Err(ForcePushError::NoMemory(()))),
    }
}

/// Whether this tail is open, below the limit and at a slot: a push that found it goes on to the pushers' block.
#[inline(always)]
pub fn is_open_below_limit(tail: u64) -> bool
    requires { IsWord tail }
    ensures { result ≡ is_roomy_tail tail }
{
    !is_marked(tail) && items(position_of(tail)) != LIMIT && offset(tail) != BLOCK_SLOTS
}

/// Whether a push that found this tail may claim without asking for a block: it has a spare one, or the slot is not the last of its block.
#[inline(always)]
pub fn needs_no_request<B: Copy>(tail: u64, spare: &Option<B>) -> bool
    ensures { result ≡ (is_some spare.now || not (is_last_slot tail)) }
{
    spare.is_some() || !is_last(tail)
}

/// Reads the pushers' block (U2).
#[inline(always)]
pub fn read_block<B: Copy>(push: PushKind, tail: u64, spare: Option<B>) -> Next<B>
    ensures { result ≡ at (ChainLocal.PushBlock push tail spare) Touch.Nothing (Op.LoadLink Link.TailBlock) }
{
    step(
        ChainLocal::PushBlock(push, tail, spare),
        Touch::Nothing,
        Op::LoadLink(Link::TailBlock),
    )
}

/// What follows a tail behind which there is no room: for good, as it is marked or closed at the limit (US), or until another push has opened the next block.
#[inline]
pub fn turn_away<B: Copy>(push: PushKind, tail: u64, spare: Option<B>) -> Next<B>
    requires word { IsWord tail }
    requires full { is_roomy_tail tail ≡ false }
    ensures { result ≡ chain_tail_found push tail spare }
{
    if is_marked(tail) {
        Next::Reply(closed(push), spare)
    } else if items(position_of(tail)) == LIMIT {
        step(
            ChainLocal::ClosingAtLimit(push, spare),
            Touch::Nothing,
            Op::Or(Word::Tail, MARK),
        )
    } else {
        load(ChainLocal::PushTail(push, spare), Word::Tail)
    }
}

/// Asks for a block (U3).
#[inline]
pub fn ask<B: Copy>(push: PushKind, tail: u64, block: Option<B>) -> Next<B>
    ensures { result ≡ asks push tail block }
{
    step(
        ChainLocal::Asking(push, tail, block),
        Touch::Nothing,
        Op::Ask,
    )
}

/// Exchanges the tail for that of the next position (U5).
#[inline(always)]
pub fn claim<B: Copy>(push: PushKind, tail: u64, block: B, spare: Option<B>) -> Next<B>
    requires { IsWord tail }
    ensures { result ≡ claims push tail block spare }
{
    step(
        ChainLocal::Claiming(push, tail, block, spare),
        Touch::Nothing,
        Op::Exchange(Word::Tail, tail, tail + TAIL_STEP),
    )
}

/// Installs the first block (U4).
#[inline]
pub fn install<B: Copy>(push: PushKind, tail: u64, fresh: B) -> Next<B>
    ensures { result ≡ granted push tail None fresh }
{
    step(
        ChainLocal::Installing(push, tail, fresh),
        Touch::Nothing,
        Op::Install(fresh),
    )
}

/// What follows the installing of a first block: it is shown to the poppers (U4b), or kept as the spare where another was there.
#[inline]
pub fn after_install<B: Copy>(push: PushKind, tail: u64, fresh: B, before: Option<B>) -> Next<B>
    ensures { result ≡ installed push tail fresh before }
{
    match before {
        None => step(
            ChainLocal::Showing(push, tail, fresh),
            Touch::Nothing,
            Op::StoreLink(Link::HeadBlock, fresh),
        ),
        Some(_) => load(ChainLocal::PushTail(push, Some(fresh)), Word::Tail),
    }
}

/// Makes the spare the pushers' block (U6).
#[inline]
pub fn lay<B: Copy>(push: PushKind, tail: u64, block: B, fresh: B) -> Next<B>
    ensures { result ≡ lays push tail block (Some fresh) }
{
    step(
        ChainLocal::Laying(push, tail, block, fresh),
        Touch::Nothing,
        Op::StoreLink(Link::TailBlock, fresh),
    )
}

/// Writes the tail's slot (U9).
#[inline(always)]
pub fn write<B: Copy>(push: PushKind, tail: u64, block: B, spare: Option<B>) -> Next<B>
    ensures { result ≡ writes push tail block spare }
{
    let slot = offset(tail) as usize;
    step(
        ChainLocal::Writing(push, spare),
        Touch::Put(slot),
        Op::Or(Word::State(block, slot), WRITE),
    )
}

/// What follows the exchange of a tail that stood at the last slot of its block: the spare is laid behind the block.
#[inline(always)]
pub fn after_last_claim<B: Copy>(
    push: PushKind,
    tail: u64,
    block: B,
    spare: Option<B>,
    found: u64,
) -> Next<B>
    requires fits { FitsChain (ChainLocal.Claiming push tail block spare) (Found found) }
    requires claimed { (found == tail) ≡ true }
    requires last { ((found == tail) && not (is_last_slot tail)) ≡ false }
    ensures { result ≡ chain_next (ChainLocal.Claiming push tail block spare) (Found found) }
{
    let Some(fresh) = spare else { unreachable!() };
    lay(push, tail, block, fresh)
}

/// What follows a tail that a push found.
#[inline]
pub fn after_tail<B: Copy>(push: PushKind, tail: u64, spare: Option<B>) -> Next<B>
    requires { IsWord tail }
    ensures { result ≡ chain_tail_found push tail spare }
{
    if is_open_below_limit(tail) {
        read_block(push, tail, spare)
    } else {
        turn_away(push, tail, spare)
    }
}

/// What follows a block that was granted as the spare: the push claims its position.
#[inline(always)]
pub fn after_spare<B: Copy>(push: PushKind, tail: u64, block: B, fresh: B) -> Next<B>
    requires { IsWord tail }
    ensures { result ≡ granted push tail (Some block) fresh }
{
    claim(push, tail, block, Some(fresh))
}

/// Moves the tail on to the block that was laid (U7).
#[inline(always)]
pub fn open<B: Copy>(push: PushKind, tail: u64, block: B, fresh: B) -> Next<B>
    ensures { result ≡ chain_next (ChainLocal.Laying push tail block fresh) Done }
{
    step(
        ChainLocal::Opening(push, tail, block, fresh),
        Touch::Nothing,
        Op::Add(Word::Tail, TAIL_STEP),
    )
}

/// Links the block that was laid behind its own (U8).
#[inline(always)]
pub fn link<B: Copy>(push: PushKind, tail: u64, block: B, fresh: B) -> Next<B>
    ensures { result ≡ at (ChainLocal.Chaining push tail block fresh) Touch.Nothing (Op.StoreLink (Link.Next block) fresh) }
{
    step(
        ChainLocal::Chaining(push, tail, block, fresh),
        Touch::Nothing,
        Op::StoreLink(Link::Next(block), fresh),
    )
}
