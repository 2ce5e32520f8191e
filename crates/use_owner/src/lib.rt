//! Uses of the queue with one owner: a log of the newest entries, and a pool of numbered places.
#![tactic(auto)]

pub mod log;
pub mod pool;
