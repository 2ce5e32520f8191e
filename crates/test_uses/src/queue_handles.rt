//! Handles of a queue: their calls, and what comes of one that ends the sharing of its queue.
ghost use Rattle.std.specs.Prelude.{◌≡◌};

use crate::asserts::{is, is_in};
use callers::handle::sum_of_a_thread;
use queue_handle::{Handle, Unfinished};
use std::alloc::Global;
use std::process::Abort;
use std::sync::Wait;

/// What becomes of the second handle.
#[derive(Clone, Copy, Debug)]
enum End {
    Joined,
    Kept,
    Dropped,
}

/// What a handle comes to: how many items the queue with its one owner has, or why the sharing goes on.
type Came = Result<usize, &'static str>;

/// A handle of a queue of this capacity, or without one. Asserts that there is memory.
fn opened(rt: &impl Abort, alloc: Global, cap: Option<usize>) -> Handle<u64> {
    let opened = match cap {
        Some(0) => panic!(rt; "a capacity of 0"),
        Some(slots) => Handle::bounded(alloc, slots),
        None => Handle::unbounded(alloc),
    };
    opened.expect(rt, "memory")
}

/// What a handle comes to that ends the sharing.
fn finished(handle: Handle<u64>) -> Came {
    match handle.finish() {
        Ok(alone) => Ok(alone.len()),
        Err(Unfinished::Shared(_)) => Err("shared"),
        Err(Unfinished::Missing(_, _)) => Err("a party is missing"),
    }
}

/// Ends the sharing by the first of two handles.
fn end_by_first(one: Handle<u64>, other: Handle<u64>, second: End) -> Came
    requires { other.queue ≡ one.queue }
{
    match second {
        End::Joined => finished(one.join(other)),
        End::Kept => {
            let came = finished(one);
            drop(other);
            came
        }
        End::Dropped => {
            drop(other);
            finished(one)
        }
    }
}

/// Pops an item, by a call that never waits where there is a capacity. Gives whether there is one.
fn pops<R: Wait>(rt: &R, handle: &mut Handle<u64>) -> bool
    ensures { handle.new.queue ≡ handle.old.queue }
{
    match handle.capacity() {
        Some(_) => handle.try_pop().is_ok(),
        None => handle.pop(rt).is_ok(),
    }
}

/// Pushes three items through two handles, pops one, and ends the sharing by the first. Gives which calls were accepted, and what the first comes to.
fn came_of<R: Wait + Abort>(
    rt: &R,
    alloc: Global,
    cap: Option<usize>,
    second: End,
) -> ([bool; 4], Came) {
    let mut one = opened(rt, alloc, cap);
    let Ok(mut other) = one.split() else {
        panic!(rt; "no second handle")
    };
    let done = [
        one.push(rt, 1).is_ok(),
        other.try_push(2).is_ok(),
        one.try_force_push(3).is_ok(),
        pops(rt, &mut other),
    ];
    (done, end_by_first(one, other, second))
}

#[test]
fn what_a_handle_comes_to(rt: HostRuntime) {
    let rows = [
        (End::Joined, Ok(2)),
        (End::Kept, Err("shared")),
        (End::Dropped, Err("a party is missing")),
    ];
    for (second, wanted) in rows {
        for cap in [Some(3), Some(4), None] {
            let found = came_of(&rt, rt.alloc(), cap, second);
            is_in(&rt, (cap, second), found, ([true; 4], wanted));
        }
    }
}

#[test]
fn sent_by_a_thread_with_a_handle(rt: HostRuntime) {
    let (sum, handle) = sum_of_a_thread(rt, rt.alloc(), 1000).expect(&rt, "memory");
    is(&rt, (sum, finished(handle)), (499_500, Ok(0)));
}
