//! What a reader of a run may find wrong.
use std::alloc::AllocError;

/// What is wrong with what is told of a run.
#[derive(Clone, Copy, Debug)]
pub enum Flaw {
    /// There was no memory for the run or for its reader.
    NoMemory,
    /// An effect that the queue or the party's call does not allow, or two of one event.
    Effect,
    /// A reply to another call, that its effects do not stand for, or that is right at no moment of its call.
    Reply,
    /// A call without steps that is not answered at once, or a wait-free one that takes more than two.
    WaitFree,
    /// An event that fits was skipped, or one that does not fit was not.
    Skip,
    /// A call that stands in no order of whole calls, or an order that leaves something else.
    Order,
    /// What is left is not the list of the last state.
    Left,
    /// The number of blocks, or its bound.
    Blocks,
    /// Something that was allocated is not given back.
    Memory,
    /// A call took other steps alone than it has.
    Steps,
    /// Of two calls one waits for the other, which has done nothing yet, or it did not end at all.
    Waits,
}

impl From<AllocError> for Flaw {
    fn from(_: AllocError) -> Flaw {
        Flaw::NoMemory
    }
}

/// Appends an item to a list.
///
/// # Errors
///
/// `NoMemory`.
pub fn append<T: Copy>(list: &mut Vec<T>, item: T) -> Result<(), Flaw> {
    match list.push(item) {
        Ok(()) => Ok(()),
        Err(_) => Err(Flaw::NoMemory),
    }
}
