//! The steps of a chain of blocks. `Tail` is twice the position of the next item to come, and one more once the queue is closed; `Head` is twice the position
//! of the front, and one more if its block is known not to be the last. Position `p` is in block `p / BLOCK_POSITIONS` at offset `p % BLOCK_POSITIONS`; the last
//! offset of a block has no slot, and a tail or a head stands there only while a call moves it to the next block.
ghost use Rattle.std.specs.Prelude.{◌≡◌, ◌+◌, ◌*◌, ◌^◌, ◌<◌, if◌then◌else◌};
ghost use Rattle.queue_steps.specs.Words.{IsWord};
ghost use Rattle.queue_steps.specs.ChainWords.{offset_of, items_before, over_end};
ghost use Rattle.queue_steps.specs.ChainNext.{at, loads, chain_look, chain_begin, is_last_slot};

use crate::model::{CallKind, Reply};
use crate::sizes::{BLOCK_POSITIONS, BLOCK_SLOTS};
use crate::steps::{CallView, ChainLocal, Local, Look, MARK, Next, Op, TAIL_STEP, Touch, Word};
use crate::words::position_of;

pub mod looking;
pub mod popping;
pub mod pushing;

/// The offset of a word's position in its block.
#[inline(always)]
pub fn offset(word: u64) -> u64
    ensures { result ≡ offset_of word }
{
    position_of(word) % BLOCK_POSITIONS
}

/// Whether a word's position is that of the last slot of its block.
#[inline(always)]
pub fn is_last(word: u64) -> bool
    ensures { result ≡ is_last_slot word }
{
    offset(word) + 1 == BLOCK_SLOTS
}

/// How many items stand before a position.
#[inline(always)]
pub fn items(position: u64) -> u64
    requires { IsWord position }
    ensures { result ≡ items_before position }
{
    position / BLOCK_POSITIONS * BLOCK_SLOTS + position % BLOCK_POSITIONS
}

/// The position, moved over its block's end.
#[inline(always)]
pub fn settle(position: u64) -> u64
    requires { IsWord position }
    ensures { result ≡ over_end position }
{
    if position % BLOCK_POSITIONS == BLOCK_SLOTS {
        position + 1
    } else {
        position
    }
}

/// The head at a position, marked if its block is known not to be the last.
#[inline(always)]
fn head_at(position: u64, more: bool) -> u64
    requires { position * 2 + 1 < 2 ^ 64 }
    ensures { result ≡ position * 2 + (if more then 1 else 0) }
{
    position * TAIL_STEP + if more { MARK } else { 0 }
}

/// A step, after which the call waits there.
#[inline(always)]
fn step<B: Copy>(local: ChainLocal<B>, touch: Touch, op: Op<B>) -> Next<B>
    ensures { result ≡ at local touch op }
{
    Next::Step(Local::Chain(local), touch, op)
}

/// A step that only loads a word.
#[inline(always)]
pub fn load<B: Copy>(local: ChainLocal<B>, word: Word<B>) -> Next<B>
    ensures { result ≡ loads local word }
{
    step(local, Touch::Nothing, Op::Load(word))
}

/// The first step of a look. Two loads tell whether the chain is empty, and it is never full; any other look counts the items.
#[inline(always)]
fn look<B: Copy>(look: Look) -> Next<B>
    ensures { result ≡ chain_look look }
{
    match look {
        Look::IsClosed => load(ChainLocal::ClosedTail, Word::Tail),
        Look::IsEmpty => load(ChainLocal::EmptyHead, Word::Head),
        Look::IsFull => Next::Reply(Reply::IsFull(false), None),
        counted => load(ChainLocal::CountTail(counted), Word::Tail),
    }
}

/// The first step of a call.
#[inline]
pub fn begin<B: Copy>(call: CallKind) -> Next<B>
    ensures { result ≡ chain_begin call }
{
    match CallView::of(call) {
        CallView::Push(push) => load(ChainLocal::PushTail(push, None), Word::Tail),
        CallView::Pop => load(ChainLocal::PopHead, Word::Head),
        CallView::Close => step(
            ChainLocal::Closing,
            Touch::Nothing,
            Op::Or(Word::Tail, MARK),
        ),
        CallView::Look(taken) => look(taken),
        CallView::Capacity => Next::Reply(Reply::Capacity(None), None),
    }
}
