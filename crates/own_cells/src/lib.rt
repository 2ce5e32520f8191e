//! The cells of one owner's queues, by the driver of calls: a slot, a ring of slots, a chain of blocks.
#![tactic(auto)]

pub mod chain;
pub mod ring;
pub mod slot;
