//! Uses of queues with one owner.
pub mod logs;
pub mod pools;
