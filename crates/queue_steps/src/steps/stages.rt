//! Where a call stands that passes from block to block, as numbers: a function that is made for one of them is made for that step alone.
use crate::steps::{ChainLocal, Local};

/// A push has asked for the pushers' block.
pub const PUSH_BLOCK: u64 = 0;

/// A push has asked the allocator for a block.
pub const ASKING: u64 = 1;

/// A push has tried to claim a position.
pub const CLAIMING: u64 = 2;

/// A push has shown its block to the pushers.
pub const LAYING: u64 = 3;

/// A push has moved the tail on to its block.
pub const OPENING: u64 = 4;

/// A push has linked its block.
pub const CHAINING: u64 = 5;

/// A pop has tried to claim a position.
pub const TAKING: u64 = 6;

/// A pop has asked for the block after its own.
pub const FOLLOWING: u64 = 7;

/// A pop has asked for the block after that.
pub const PEEKING: u64 = 8;

/// A pop has shown the next block to the poppers.
pub const PASSING: u64 = 9;

/// A pop has moved the head on to the next block.
pub const ENTERING: u64 = 10;

/// A pop has asked for the state of its slot.
pub const AWAITING: u64 = 11;

/// Whether the call stands there.
#[inline(always)]
pub fn is_at<B: Copy>(stage: u64, local: &Local<B>) -> bool {
    let Local::Chain(local) = local else {
        return false;
    };
    match local {
        ChainLocal::PushBlock(_, _, _) => stage == PUSH_BLOCK,
        ChainLocal::Asking(_, _, _) => stage == ASKING,
        ChainLocal::Claiming(_, _, _, _) => stage == CLAIMING,
        ChainLocal::Laying(_, _, _, _) => stage == LAYING,
        ChainLocal::Opening(_, _, _, _) => stage == OPENING,
        ChainLocal::Chaining(_, _, _, _) => stage == CHAINING,
        ChainLocal::Taking(_, _) => stage == TAKING,
        ChainLocal::Following(_, _) => stage == FOLLOWING,
        ChainLocal::Peeking(_, _, _) => stage == PEEKING,
        ChainLocal::Passing(_, _, _) => stage == PASSING,
        ChainLocal::Entering(_, _) => stage == ENTERING,
        ChainLocal::Awaiting(_, _) => stage == AWAITING,
        _ => false,
    }
}
