//! How a party's call runs at a table or in a chain of blocks: to its end, or until it would wait, where it pauses or is given up.
#![tactic(auto)]

pub mod allocated_chain;
pub mod attempts;
pub mod beginning;
pub mod chain;
pub mod early;
pub mod left;
pub mod pausing;
pub mod quitting;
pub mod running;
pub mod waiting;
