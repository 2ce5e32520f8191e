//! The errors of calls that answer busy in the place of waiting: how they are printed, and what they hand back.
use crate::asserts::{is, is_in};
use concurrent_queue::{TryForcePushError, TryPopError, TryPushError};
use std::alloc::Global;
use std::fmt::{Debug, Display};
use std::process::Abort;

static PUSHES: [(TryPushError<u64>, &str); 4] = [
    (TryPushError::Full(1), "Full Full(1)"),
    (TryPushError::Closed(1), "Closed Closed(1)"),
    (TryPushError::NoMemory(1), "NoMemory NoMemory(1)"),
    (TryPushError::Busy(1), "Busy Busy(1)"),
];

static FORCES: [(TryForcePushError<u64>, &str); 3] = [
    (TryForcePushError::Closed(1), "Closed Closed(1)"),
    (TryForcePushError::NoMemory(1), "NoMemory NoMemory(1)"),
    (TryForcePushError::Busy(1), "Busy Busy(1)"),
];

static POPS: [(TryPopError, &str); 3] = [
    (TryPopError::Empty, "Empty Empty"),
    (TryPopError::Closed, "Closed Closed"),
    (TryPopError::Busy, "Busy Busy"),
];

/// Asserts how errors are printed.
fn are_printed<E: Display + Debug>(rt: &impl Abort, alloc: Global, errors: &[(E, &str)]) {
    for (error, wanted) in errors {
        let printed = format!(in alloc; "{error} {error:?}").expect(rt, "memory");
        is(rt, printed.as_str(), *wanted);
    }
}

/// Asserts the values that the errors of pushes hand back, and which of them are busy.
fn are_handed_back(rt: &impl Abort) {
    for (error, text) in PUSHES.iter() {
        let busy = error.is_busy();
        is_in(
            rt,
            *text,
            (busy, error.into_inner()),
            (*text == "Busy Busy(1)", 1),
        );
    }
    for (error, text) in FORCES.iter() {
        is_in(rt, *text, error.into_inner(), 1);
    }
}

#[test]
fn printed_errors(rt: HostRuntime) {
    are_printed(&rt, rt.alloc(), &PUSHES);
    are_printed(&rt, rt.alloc(), &FORCES);
    are_printed(&rt, rt.alloc(), &POPS);
    are_handed_back(&rt);
}
