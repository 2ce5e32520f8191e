//! What the tests with threads ask of a runtime.
use std::alloc::AllocGlobal;
use std::process::Abort;
use std::random::RandomSource;
use std::sync::Wait;
use std::thread::Threads;
use std::time::Clock;
use test_support::watched::System;

/// A runtime that starts threads, waits, ends the process, gives memory and random numbers, and reports the time and what the system reports.
pub(crate) trait Host: Wait + Threads + Clock + RandomSource + AllocGlobal + Abort + System {}

impl<R: Wait + Threads + Clock + RandomSource + AllocGlobal + Abort + System> Host for R {}
