//! What the tests ask of a runtime.
use std::alloc::AllocGlobal;
use std::process::Abort;
use std::sync::Wait;
use std::thread::Threads;
use std::time::Clock;
use test_support::watched::System;

/// A runtime that starts threads, waits, ends the process, gives memory, and reports the time and what the system reports.
pub(crate) trait Host: Threads + Wait + Abort + AllocGlobal + Clock + System {}

impl<R: Threads + Wait + Abort + AllocGlobal + Clock + System> Host for R {}
