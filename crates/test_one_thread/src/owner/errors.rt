//! The errors: their texts, what they hand back, and when two are equal.
use crate::asserts::is;
use exclusive_queue::{ForcePushError, PopError, PushError};
use std::alloc::Global;
use std::fmt::{Debug, Display};
use std::process::Abort;

const FULL: PushError<u64> = PushError::Full(7);

const CLOSED: PushError<u64> = PushError::Closed(8);

const NO_MEMORY: PushError<u64> = PushError::NoMemory(9);

const FORCE_CLOSED: ForcePushError<u64> = ForcePushError::Closed(7);

const FORCE_NO_MEMORY: ForcePushError<u64> = ForcePushError::NoMemory(8);

/// Asserts that an error is printed so: as it is, at the right and at the left of a field of ten, and for debugging.
fn is_printed<E: Display + Debug>(rt: &impl Abort, alloc: Global, error: &E, wanted: &str) {
    let text = format!(in alloc; "{error}|{error:>10}|{error:<10}|{error:?}").expect(rt, "memory");
    is(rt, text.as_str(), wanted);
}

#[test]
fn each_error_is_printed(rt: HostRuntime) {
    let alloc = rt.alloc();
    is_printed(
        &rt,
        alloc,
        &PopError::Empty,
        "Empty|     Empty|Empty     |Empty",
    );
    is_printed(
        &rt,
        alloc,
        &PopError::Closed,
        "Closed|    Closed|Closed    |Closed",
    );
    is_printed(&rt, alloc, &FULL, "Full|      Full|Full      |Full(7)");
    is_printed(
        &rt,
        alloc,
        &CLOSED,
        "Closed|    Closed|Closed    |Closed(8)",
    );
    is_printed(
        &rt,
        alloc,
        &NO_MEMORY,
        "NoMemory|  NoMemory|NoMemory  |NoMemory(9)",
    );
    is_printed(
        &rt,
        alloc,
        &FORCE_CLOSED,
        "Closed|    Closed|Closed    |Closed(7)",
    );
    is_printed(
        &rt,
        alloc,
        &FORCE_NO_MEMORY,
        "NoMemory|  NoMemory|NoMemory  |NoMemory(8)",
    );
}

/// Each predicate is true on its variant alone, and each value is handed back.
#[test]
fn each_error_tells_what_it_is(rt: HostRuntime) {
    let empty = [PopError::Empty.is_empty(), PopError::Closed.is_empty()];
    is(&rt, empty, [true, false]);
    let closed = [PopError::Empty.is_closed(), PopError::Closed.is_closed()];
    is(&rt, closed, [false, true]);
    let full = [FULL.is_full(), CLOSED.is_full(), NO_MEMORY.is_full()];
    is(&rt, full, [true, false, false]);
    let closed = [FULL.is_closed(), CLOSED.is_closed(), NO_MEMORY.is_closed()];
    is(&rt, closed, [false, true, false]);
    let pushed = [
        FULL.into_inner(),
        CLOSED.into_inner(),
        NO_MEMORY.into_inner(),
    ];
    is(&rt, pushed, [7, 8, 9]);
    let forced = [FORCE_CLOSED.into_inner(), FORCE_NO_MEMORY.into_inner()];
    is(&rt, forced, [7, 8]);
}

/// The same, another value, and another variant of each error.
#[test]
fn errors_are_equal_by_variant_and_value(rt: HostRuntime) {
    let equal = [
        FULL == PushError::Full(7),
        FULL == PushError::Full(8),
        FULL == PushError::Closed(7),
        PopError::Empty == PopError::Closed,
        FORCE_CLOSED == ForcePushError::NoMemory(7),
    ];
    is(&rt, equal, [true, false, false, false, false]);
}
