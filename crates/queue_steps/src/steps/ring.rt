//! Where a call on a ring is, and the words of a ring. `Tail` is twice the position of the next item to come, and one more once the queue is closed; `Head` is the position of the front.
//! A slot's stamp is the position for which it is free, and one more once it is filled for it.
ghost use Rattle.std.specs.Prelude.{◌≡◌, ⊤};

use crate::steps::Look;
use std::alloc::AllocError;

pub mod each;
pub mod following;

/// What is set in a tail once the queue is closed.
pub const MARK: u64 = 1;

/// How much a tail grows by with each position.
pub const TAIL_STEP: u64 = 2;

/// Which push: one that answers `Full`, or one that displaces the front.
#[derive(Clone, Copy, Debug, PartialEq)]
pub enum PushKind {
    Push,
    Force,
}

/// Where a call on a ring stands, with the words that it remembers.
#[derive(Copy)]
pub enum RingLocal {
    /// B1: the read of the tail.
    PushTail(PushKind),
    /// B2: the read of the stamp of that tail's slot.
    PushStamp(PushKind, u64),
    /// B3: the exchange of that tail.
    Claiming(PushKind, u64),
    /// B4: the slot is filled and stamped.
    Filling(PushKind),
    /// B5: the read of the head.
    PushHead(u64),
    /// F5: the exchange of the head, by which the front leaves.
    Displacing(u64),
    /// F6: the tail moves on, by which the item arrives.
    Arriving(u64),
    /// F7: the slot is swapped and stamped.
    Swapping,
    /// BS: the mark of a queue that closes at the limit, having accepted all that it ever will.
    ClosingAtLimit(PushKind),
    /// O1: the read of the head.
    PopHead,
    /// O2: the read of the stamp of that head's slot.
    PopStamp(u64),
    /// O3: the exchange of that head.
    Taking(u64),
    /// O4: the slot is emptied and stamped.
    Emptying,
    /// O5: the read of the tail.
    PopTail(u64),
    /// L1: the read of the tail, by a call that counts the items.
    CountTail(Look),
    /// L2: the read of the head after that tail.
    CountHead(Look, u64),
    /// L3: the second read of the tail, after that tail and that head.
    CountAgain(Look, u64, u64),
    /// E1: the read of the head.
    EmptyHead,
    /// E2: the read of the tail after that head.
    EmptyTail(u64),
    /// G1: the read of the tail.
    FullTail,
    /// G2: the read of the head after that tail.
    FullHead(u64),
    /// C1: the mark of a close.
    Closing,
    /// K1: the read of the tail.
    ClosedTail,
}

impl Clone for RingLocal {
    ghost is_clone = { λ x y. y ≡ x };

    ghost is_infallible = { λ _. ⊤ };

    fn clone(&self) -> Result<RingLocal, AllocError> {
        Ok(*self)
    }
}
