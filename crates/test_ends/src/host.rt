//! What the tests ask of a runtime.
use std::alloc::AllocGlobal;
use std::process::Abort;
use std::sync::Wait;
use std::thread::Threads;

/// A runtime that starts threads, waits, ends the process and gives memory.
pub(crate) trait Host: Threads + Wait + Abort + AllocGlobal {}

impl<R: Threads + Wait + Abort + AllocGlobal> Host for R {}
