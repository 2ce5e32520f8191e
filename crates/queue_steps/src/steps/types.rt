//! What a call is asked to do, and what it is told. `B` names a block of an unbounded queue.
ghost use Rattle.std.specs.Prelude.{◌≡◌, ⊤};

use crate::model::{CallKind, ReplyKind};
use crate::steps::chain::ChainLocal;
use crate::steps::ring::RingLocal;
use crate::steps::slot::SlotLocal;
use std::alloc::AllocError;

/// Which queue.
#[derive(Clone, Copy, Debug, PartialEq)]
pub enum Kind {
    /// One slot under one word.
    Single,
    /// A ring of so many slots, more than one.
    Bounded(usize),
    /// A chain of blocks.
    Unbounded,
}

/// A word of 64 bits.
#[derive(Copy, Drop)]
pub enum Word<B> {
    /// What is in the slot of a queue of one slot, and whether a call holds it.
    Lock,
    /// How far the poppers are.
    Head,
    /// How far the pushers are, and whether the queue is closed.
    Tail,
    /// For which position a slot of a ring is free or filled.
    Stamp(usize),
    /// Whether a slot of a block is written, read or to be destroyed.
    State(B, usize),
}

impl<B: Copy> Clone for Word<B> {
    ghost is_clone = { λ x y. y ≡ x };

    ghost is_infallible = { λ _. ⊤ };

    fn clone(&self) -> Result<Word<B>, AllocError> {
        Ok(*self)
    }
}

/// A place for a block or none.
#[derive(Copy, Drop)]
pub enum Link<B> {
    /// The block of the poppers.
    HeadBlock,
    /// The block of the pushers.
    TailBlock,
    /// The block after this one.
    Next(B),
}

impl<B: Copy> Clone for Link<B> {
    ghost is_clone = { λ x y. y ≡ x };

    ghost is_infallible = { λ _. ⊤ };

    fn clone(&self) -> Result<Link<B>, AllocError> {
        Ok(*self)
    }
}

/// One atomic operation, or a request for a block.
#[derive(Copy, Drop)]
pub enum Op<B> {
    /// Reads the word.
    Load(Word<B>),
    /// Writes the word.
    Store(Word<B>, u64),
    /// Adds to the word.
    Add(Word<B>, u64),
    /// Sets bits of the word.
    Or(Word<B>, u64),
    /// Keeps these bits of the word alone.
    And(Word<B>, u64),
    /// Writes the second number exactly if the word was the first.
    Exchange(Word<B>, u64, u64),
    /// Reads the link.
    LoadLink(Link<B>),
    /// Writes the link.
    StoreLink(Link<B>, B),
    /// Makes this the pushers' block exactly if there was none.
    Install(B),
    /// Asks for a block.
    Ask,
}

impl<B: Copy> Clone for Op<B> {
    ghost is_clone = { λ x y. y ≡ x };

    ghost is_infallible = { λ _. ⊤ };

    fn clone(&self) -> Result<Op<B>, AllocError> {
        Ok(*self)
    }
}

/// What is done to a slot just before the operation, in the same step. On a chain it is a slot of the block whose state the operation names.
#[derive(Clone, Copy, PartialEq)]
pub enum Touch {
    /// Nothing.
    Nothing,
    /// The call's value goes into the empty slot.
    Put(usize),
    /// The call's value and the slot's change places.
    Swap(usize),
    /// The slot's value goes to the call.
    Take(usize),
}

/// What the last operation gave.
#[derive(Copy, Drop)]
pub enum Answer<B> {
    /// There was none: the call begins.
    Start,
    /// The word before the operation.
    Found(u64),
    /// The link before the operation.
    Linked(Option<B>),
    /// The block that was asked for.
    Granted(B),
    /// There is no memory for a block.
    Refused,
    /// The store is done.
    Done,
}

impl<B: Copy> Clone for Answer<B> {
    ghost is_clone = { λ x y. y ≡ x };

    ghost is_infallible = { λ _. ⊤ };

    fn clone(&self) -> Result<Answer<B>, AllocError> {
        Ok(*self)
    }
}

/// Where a call stands: what it asked last, and what it has to remember.
// Over all variants it has eight parts, bytes and words by their places. With a ninth, as by a place with two bytes, the compiler keeps it in memory, and a call takes three to six times as many instructions.
#[derive(Copy, Drop)]
pub enum Local<B> {
    /// Before the first step.
    Begin(CallKind),
    /// Within a call on one slot.
    Slot(SlotLocal),
    /// Within a call on a ring.
    Ring(RingLocal),
    /// Within a call on a chain of blocks.
    Chain(ChainLocal<B>),
}

impl<B: Copy> Clone for Local<B> {
    ghost is_clone = { λ x y. y ≡ x };

    ghost is_infallible = { λ _. ⊤ };

    fn clone(&self) -> Result<Local<B>, AllocError> {
        Ok(*self)
    }
}

/// The next step, or the reply with the block that the call gives up.
#[derive(Copy, Drop)]
pub enum Next<B> {
    /// The touch and then the operation; the call then stands at the local state.
    Step(Local<B>, Touch, Op<B>),
    /// The call ends.
    Reply(ReplyKind, Option<B>),
}

impl<B: Copy> Clone for Next<B> {
    ghost is_clone = { λ x y. y ≡ x };

    ghost is_infallible = { λ _. ⊤ };

    fn clone(&self) -> Result<Next<B>, AllocError> {
        Ok(*self)
    }
}
