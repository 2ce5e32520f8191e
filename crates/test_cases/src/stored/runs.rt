//! Runs of the three programs.
use app_check::command::command as check_command;
use app_command::program::program;
use app_explore::command::command as explore_command;
use machine_replay::blocks::BlockPlace;
use queue_steps::sizes::BLOCK_SLOTS;
use std::alloc::{AllocError, Allocator, Global, Layout};
use std::sync::Wait;
use std::thread::Threads;
use test_support::allocators::{Heap, Refusal};
use test_support::runs::{Outcome, SOUND, Streams, words};
use test_support::streams::{Reader, Writer};

/// Memory of a run, of which the blocks of a replay are counted apart: no list that grows is as large as one.
pub fn counting(alloc: Global) -> Result<Heap, AllocError> {
    match Layout::array::<BlockPlace<u64>>(BLOCK_SLOTS as usize) {
        Ok(places) => Ok(Heap::watching(alloc, Refusal::Never, places)),
        Err(_) => Err(AllocError),
    }
}

/// Runs the program that a line names first on the words behind it, with its memory from this allocator. The words, and what is written, have theirs from the global one.
pub fn run<R: Threads + Wait + Sync + AllocGlobal, A: Allocator>(
    rt: &R,
    alloc: &A,
    line: &str,
    input: &[u8],
    streams: Streams,
) -> Result<Outcome, AllocError> {
    let mut input = Reader::new(input, streams.input);
    let mut output = Writer::new(rt.alloc(), streams.output);
    let mut faults = Writer::new(rt.alloc(), streams.faults);
    let status = if let Some(args) = line.strip_prefix("queue_explore") {
        let args = words(rt.alloc(), args)?;
        explore_command(alloc, &args, &mut input, &mut output, &mut faults)
    } else if let Some(args) = line.strip_prefix("queue_check") {
        let args = words(rt.alloc(), args)?;
        check_command(alloc, &args, &mut input, &mut output, &mut faults)
    } else {
        let given = Ok(words(rt.alloc(), line)?.into_iter());
        program(rt, alloc, given, &mut input, &mut output, &mut faults).status
    };
    Ok(Outcome {
        status,
        output,
        faults,
    })
}

/// The arguments of a replay that is refused: no queue may have so many slots.
const REFUSED: &str = "queue_run replay bounded:576460752303423489 1";

/// The status with which that replay ends.
pub fn status_of_refused<R: Threads + Wait + Sync + AllocGlobal>(rt: &R) -> Result<u8, AllocError> {
    Ok(run(rt, &rt.alloc(), REFUSED, b"0 push 1\n", SOUND)?.status)
}
