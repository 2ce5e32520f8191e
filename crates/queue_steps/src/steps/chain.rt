//! Where a call on a chain of blocks is, and the words of a chain. `Tail` is twice the position of the next item to come, and one more once the queue is closed; `Head` is twice the position
//! of the front, and one more if its block is known not to be the last. Position `p` is in block `p / BLOCK_POSITIONS` at offset `p % BLOCK_POSITIONS`; the last
//! offset of a block has no slot, and a tail or a head stands there only while a call moves it to the next block.
ghost use Rattle.std.specs.Prelude.{◌≡◌, ⊤};

use crate::steps::{Look, PushKind};
use std::alloc::AllocError;

pub mod each;
pub mod following;

/// The slot's item is written.
pub const WRITE: u64 = 1;

/// The slot's item is read.
pub const READ: u64 = 2;

/// The block is to be given up by whoever reads the slot.
pub const DESTROY: u64 = 4;

/// Where a call on a chain stands, with the words and blocks that it remembers. A push holds at most one spare block.
#[derive(Copy, Drop)]
pub enum ChainLocal<B> {
    /// U1: the read of the tail, with the spare.
    PushTail(PushKind, Option<B>),
    /// U2: the read of the pushers' block after that tail, with the spare.
    PushBlock(PushKind, u64, Option<B>),
    /// U3: the request for a block, after that tail and that pushers' block.
    Asking(PushKind, u64, Option<B>),
    /// U4: the installing of the first block, after that tail.
    Installing(PushKind, u64, B),
    /// U4b: the first block is shown to the poppers.
    Showing(PushKind, u64, B),
    /// U5: the exchange of that tail, in that block, with the spare.
    Claiming(PushKind, u64, B, Option<B>),
    /// U6: the spare becomes the pushers' block, after the last slot of that block was claimed.
    Laying(PushKind, u64, B, B),
    /// U7: the tail moves on to the spare.
    Opening(PushKind, u64, B, B),
    /// U8: the spare becomes the block after that block.
    Chaining(PushKind, u64, B, B),
    /// U9: the slot is written, with the spare that is left.
    Writing(PushKind, Option<B>),
    /// US: the mark of a queue that closes at the limit, having accepted all that it ever will.
    ClosingAtLimit(PushKind, Option<B>),
    /// V1: the read of the head.
    PopHead,
    /// V2: the read of the poppers' block after that head.
    PopBlock(u64),
    /// V3: the read of the tail after that head and that block.
    PopTail(u64, Option<B>),
    /// V4: the exchange of that head, in that block.
    Taking(u64, B),
    /// V5: the read of the block after that block, whose last slot was claimed.
    Following(u64, B),
    /// V6: the read of the block after the next one.
    Peeking(u64, B, B),
    /// V7: the next block becomes the poppers' block; it is known whether there is one after it.
    Passing(u64, B, bool),
    /// V8: the head moves on to the next block.
    Entering(u64, B),
    /// V9: the read of the state of the slot at that head.
    Awaiting(u64, B),
    /// V10: the slot of that block is emptied and marked as read.
    Reading(B, u64),
    /// W1: the read of the state of a slot of a passed block.
    Walking(B, u64),
    /// W2: the mark by which the slot's reader is told to go on with the walk.
    Destroying(B, u64),
    /// Y1: the read of the tail, by a call that counts the items.
    CountTail(Look),
    /// Y2: the read of the head after that tail.
    CountHead(Look, u64),
    /// Y3: the second read of the tail, after that tail and that head.
    CountAgain(Look, u64, u64),
    /// E1: the read of the head.
    EmptyHead,
    /// E2: the read of the tail after that head.
    EmptyTail(u64),
    /// C1: the mark of a close.
    Closing,
    /// L1: the read of the tail.
    ClosedTail,
}

impl<B: Copy> Clone for ChainLocal<B> {
    ghost is_clone = { λ x y. y ≡ x };

    ghost is_infallible = { λ _. ⊤ };

    fn clone(&self) -> Result<ChainLocal<B>, AllocError> {
        Ok(*self)
    }
}
