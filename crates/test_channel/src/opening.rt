//! Channels as the tests open them, whose ends are values of their own.
ghost use Rattle.channel_handle.specs.Ends.{IsPair};

use channel_handle::{Receiver, Sender, bounded, unbounded};
use mem_blocks::null_testable::NullTestable;
use std::process::Abort;

/// The two ends of a channel of this capacity, or without one. Asserts that the capacity is not 0, and that there is memory.
pub fn opened_surely<T: Drop, A: NullTestable + Clone>(
    rt: &impl Abort,
    alloc: A,
    cap: Option<usize>,
) -> (Sender<T, A>, Receiver<T, A>)
    ensures { IsPair cap result.0 result.1 }
{
    let opened = match cap {
        Some(0) => panic!(rt; "a capacity of 0"),
        Some(slots) => bounded(alloc, slots),
        None => unbounded(alloc),
    };
    match opened {
        Ok(ends) => ends,
        Err(_) => panic!(rt; "no memory"),
    }
}
