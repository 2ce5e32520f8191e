//! Where a call on one slot is, and the bits of its word.
use crate::steps::Look;

pub mod each;

/// The slot is in some call's hands.
pub const LOCKED: u64 = 1;

/// The slot holds an item, or will once it is unlocked.
pub const PUSHED: u64 = 2;

/// The queue is closed.
pub const CLOSED: u64 = 4;

/// All bits of a word but `LOCKED`.
pub const UNLOCKED: u64 = u64::MAX - LOCKED;

/// All bits of a word but `PUSHED`.
pub const UNPUSHED: u64 = u64::MAX - PUSHED;

/// Where a call on one slot stands. A number is what its exchange expects to find.
#[derive(Clone, Copy, PartialEq)]
pub enum SlotLocal {
    /// P1: the exchange of a push.
    Pushing,
    /// P2: the slot is filled and unlocked.
    Pushed,
    /// F1: the exchange of a forced push.
    Forcing(u64),
    /// F2: the slot is filled, or swapped, and unlocked.
    Forced(u64),
    /// O1: the exchange of a pop.
    Popping(u64),
    /// O2: the slot is emptied and unlocked.
    Popped,
    /// C1: the mark of a close.
    Closing,
    /// L1: one look at the word.
    Looking(Look),
}
