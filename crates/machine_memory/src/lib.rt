//! The machine's words, slots, blocks and calls in progress, what they are compared by and what a hasher is fed with, and what the machine is given and tells.
#![tactic(auto)]

pub mod blocks;
pub mod calls;
pub mod effects;
pub mod feeding;
pub mod places;
pub mod same;
pub mod shared_memory;
pub mod types;
