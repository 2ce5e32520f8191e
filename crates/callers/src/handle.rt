//! A thread of its own that is started with a handle of a queue.
ghost use Rattle.std.specs.Prelude.{◌≡◌, IfOk};
ghost use Rattle.queue_steps.specs.Shares.{IsEntire};

use concurrent_queue::{PopError, PushError};
use queue_handle::Handle;
use std::alloc::{AllocError, Global};
use std::snapshot::Snapshot;
use std::sync::Wait;
use std::thread::{Promise, Threads, spawn_with, yield_now};

/// What a thread gives back that was started with a handle: one of the same queue, with the same share.
#[derive(Drop)]
struct GivesBack(Snapshot<Handle<u64>>);

impl Promise<Handle<u64>> for GivesBack {
    ghost kept_by = { λ p h. (h.queue ≡ p.0.value.queue) × (h.view.share ≡ p.0.value.view.share) };
}

/// Pushes the numbers below `count`, and closes the queue.
fn send_all<R: Wait>(rt: &R, mut handle: Handle<u64>, count: u64) -> Handle<u64>
    ensures { (result.queue ≡ handle.queue) × (result.view.share ≡ handle.view.share) }
{
    let mut next = 0;
    for _ in rt.forever() {
        if next >= count {
            break;
        }
        match handle.push(rt, next) {
            Ok(()) => next += 1,
            Err(PushError::Full(_)) => yield_now(),
            Err(_) => break,
        }
    }
    handle.close();
    handle
}

/// Pops until the queue is closed and empty, and adds up what came.
fn receive_all<R: Wait>(rt: &R, handle: &mut Handle<u64>) -> u64
    ensures { (handle.new.queue ≡ handle.old.queue) × (handle.new.view.share ≡ handle.old.view.share) }
{
    let mut sum: u64 = 0;
    for _ in rt.forever() {
        match handle.pop(rt) {
            Ok(value) => sum = sum.wrapping_add(value),
            Err(PopError::Empty) => yield_now(),
            Err(PopError::Closed) => break,
        }
    }
    sum
}

/// Adds up here what a thread of its own sends. Gives the sum, and the only handle again.
pub fn sum_of_a_thread<R>(
    rt: R,
    alloc: Global,
    count: u64,
) -> Result<(u64, Handle<u64>), AllocError>
where
    R: Threads + Wait + Copy + Send + 'static,
    ensures { IfOk result (λ r. IsEntire r.1.view.share) }
{
    let mut mine = Handle::bounded(alloc, 4)?;
    let theirs = mine.split()?;
    let back = GivesBack(Snapshot::of(&theirs));
    let sender = spawn_with(&rt, back, move || send_all(&rt, theirs, count))?;
    let sum = receive_all(&rt, &mut mine);
    let handle = mine.join(sender.join(&rt));
    Ok((sum, handle))
}
