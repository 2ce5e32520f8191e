//! Calls of a party: as they are made, and as they are begun, taken up and given up.
ghost use Rattle.std.specs.Prelude.{◌≡◌, true, false, None};
ghost use Rattle.concurrent_queue.specs.OneHeap.{IsOneHeap};
ghost use Rattle.concurrent_queue.specs.Shared.{IsPartyOf};
ghost use Rattle.test_shared.specs.Outcomes.{IsOf};

use concurrent_queue::{ConcurrentQueue, NullTestable, Outcome, Party};
use queue_steps::model::{Call, Reply};
use std::alloc::Global;
use std::process::Abort;
use std::sync::Wait;
use test_support::allocators::Heap;

/// Memory of a queue that parties share.
pub(crate) trait Memory: NullTestable + Clone {
    /// Whether there is one value of it, so that a call that is pending on a chain may be taken up.
    fn is_one() -> bool
        ensures { result ≡ true → IsOneHeap Self };
}

impl Memory for Global {
    fn is_one() -> bool {
        true
    }
}

impl Memory for &Heap {
    fn is_one() -> bool
        ensures { result ≡ false }
    {
        false
    }
}

/// Makes a call that only looks; in the place of any other, that for the capacity.
fn look<T: Drop, A: NullTestable, R: Wait>(
    rt: &R,
    queue: &ConcurrentQueue<T, A>,
    party: &mut Party<T>,
    call: Call<T>,
) -> Reply<T>
    requires { IsPartyOf party.old queue.now }
    ensures { IsPartyOf party.new queue.now }
{
    match call {
        Call::IsClosed => Reply::IsClosed(queue.is_closed(party)),
        Call::IsEmpty => Reply::IsEmpty(queue.is_empty(party)),
        Call::IsFull => Reply::IsFull(queue.is_full(party)),
        Call::Len => Reply::Len(queue.len(rt, party)),
        _ => Reply::Capacity(queue.capacity()),
    }
}

/// Makes a call.
pub(crate) fn answer<T: Drop, A: NullTestable, R: Wait>(
    rt: &R,
    queue: &ConcurrentQueue<T, A>,
    party: &mut Party<T>,
    call: Call<T>,
) -> Reply<T>
    requires { IsPartyOf party.old queue.now }
    ensures { IsPartyOf party.new queue.now }
{
    match call {
        Call::Push(value) => Reply::Push(queue.push(rt, party, value)),
        Call::ForcePush(value) => Reply::ForcePush(queue.force_push(rt, party, value)),
        Call::Pop => Reply::Pop(queue.pop(rt, party)),
        Call::Close => Reply::Close(queue.close(party)),
        _ => look(rt, queue, party, call),
    }
}

/// Begins a call.
pub(crate) fn begin<T, A: NullTestable>(
    queue: &ConcurrentQueue<T, A>,
    party: Party<T>,
    call: Call<T>,
) -> Outcome<T, A>
    requires { IsPartyOf party queue.now }
    ensures { IsOf result queue.now }
{
    match queue.begin(party, call) {
        Outcome::Done(party, reply) => Outcome::Done(party, reply),
        Outcome::Pending(pending) => Outcome::Pending(pending),
    }
}

/// Asserts that a pending call may be taken up, or given up: on a chain there has to be one value of its memory.
pub(crate) fn may_go_on<T, A: Memory>(rt: &impl Abort, queue: &ConcurrentQueue<T, A>)
    ensures { queue.now.cap ≡ None → IsOneHeap A }
{
    match queue.capacity() {
        Some(_) => {}
        None => {
            if !A::is_one() {
                panic!(rt; "memory of many values")
            }
        }
    }
}

/// Takes a call up, where it is pending.
pub(crate) fn take_up<T: Drop, A: Memory>(
    rt: &impl Abort,
    queue: &ConcurrentQueue<T, A>,
    outcome: Outcome<T, A>,
) -> Outcome<T, A>
    requires { IsOf outcome queue.now }
    ensures { IsOf result queue.now }
{
    let pending = match outcome {
        Outcome::Done(party, reply) => return Outcome::Done(party, reply),
        Outcome::Pending(pending) => pending,
    };
    may_go_on(rt, queue);
    match queue.resume(pending) {
        Outcome::Done(party, reply) => Outcome::Done(party, reply),
        Outcome::Pending(pending) => Outcome::Pending(pending),
    }
}
