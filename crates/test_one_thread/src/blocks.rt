//! Raw blocks.
pub mod memory;
