//! Channels whose ends may be in futures, as the tests open them.
ghost use Rattle.std.specs.Prelude.{◌≡◌, None, IfOk};
ghost use Rattle.channel_handle.specs.Ends.{IsPair};
ghost use Rattle.channel_futures.specs.Incoming.{end_of as receiving_end};
ghost use Rattle.channel_futures.specs.Outgoing.{end_of as sending_end};

use channel_futures::{Incoming, Outgoing, Receiver, Sender, bounded, unbounded};
use std::alloc::{AllocError, AllocGlobal};
use std::process::Abort;

/// The capacities that are tested.
pub(crate) static CAPACITIES: [Option<usize>; 3] = [Some(1), Some(2), None];

/// The ends of a new channel of this capacity, or without one. Asserts that the capacity is not 0.
fn open<T: Drop, R: AllocGlobal + Abort>(
    rt: &R,
    cap: Option<usize>,
) -> Result<(Sender<T>, Receiver<T>), AllocError>
    ensures { IfOk result (λ r. IsPair cap r.0 r.1) }
{
    match cap {
        Some(0) => panic!(rt; "a capacity of 0"),
        Some(slots) => bounded(rt.alloc(), slots),
        None => unbounded(rt.alloc()),
    }
}

/// The same, where there has to be memory. Asserts that there is.
pub(crate) fn opened<T: Drop, R: AllocGlobal + Abort>(
    rt: &R,
    cap: Option<usize>,
) -> (Sender<T>, Receiver<T>)
    ensures { IsPair cap result.0 result.1 }
{
    match open(rt, cap) {
        Ok(ends) => ends,
        Err(_) => panic!(rt; "no memory"),
    }
}

/// Asserts that the receiver may receive in futures.
pub(crate) fn incoming<T: Drop>(rt: &impl Abort, receiver: Receiver<T>) -> Incoming<T>
    ensures { receiving_end result ≡ receiver }
{
    match Incoming::of(receiver) {
        Ok(incoming) => incoming,
        Err(_) => panic!(rt; "no receiver in futures"),
    }
}

/// Asserts that the sender may send in futures.
pub(crate) fn outgoing<T: Drop>(rt: &impl Abort, sender: Sender<T>) -> Outgoing<T>
    ensures end { sending_end result ≡ sender }
    ensures free { result.held ≡ None }
{
    match Outgoing::of(sender) {
        Ok(outgoing) => outgoing,
        Err(_) => panic!(rt; "no sender in futures"),
    }
}
