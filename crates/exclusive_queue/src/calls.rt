//! The calls of a queue with one owner, however it keeps its items.

pub mod sealed;
pub mod store;
