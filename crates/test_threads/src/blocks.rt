//! Webs of raw blocks.
pub mod threads;
