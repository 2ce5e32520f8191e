//! Queues that parties share.
pub mod blocks;
pub mod dropped;
pub mod drops;
pub mod iterators;
pub mod refusals;
pub mod threads;
pub mod trying;
