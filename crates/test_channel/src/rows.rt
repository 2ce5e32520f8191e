//! What one thread is answered.
use crate::asserts::is;
use crate::deeds::said;
use crate::opening::opened_surely;
use crate::stories::{Told, tell_all};
use channel_handle::{Disconnected, SendError};
use std::alloc::Global;
use std::fmt::{Debug, Display};
use std::io;
use std::io::ErrorKind;

static STORIES: [&str; 16] = [
    "what was sent comes before the end: 2
A: send 1; send 2; end -> true
X: recv -> Ok(1); recv -> Ok(2); recv -> Err(Disconnected); end -> true",
    "nothing is sent to nobody: 1 3 -
A: send 7
X: end -> true
A: is_closed -> true; send 8 -> Err(Closed(8)); end -> true",
    "only the last of two senders closes: 1 3 -
B: end -> false
X: is_closed -> false
A: send 5
X: recv -> Ok(5)
A: end -> true
X: is_closed -> true; recv -> Err(Disconnected)",
    "only the last of two receivers closes: 2 -
Y: end -> false
A: is_closed -> false; send 6
X: end -> true
A: is_closed -> true; send 7 -> Err(Closed(7))",
    "so do senders that are dropped: 1 3 -
B: leave
X: is_closed -> false
A: send 7; leave
X: is_closed -> true; try_recv -> Ok(7); try_recv -> Err(Closed)",
    "so do receivers that are dropped: 1 3 -
Y: leave
A: try_send 1
X: leave
A: try_send 2 -> Err(Closed(2))",
    "a sender closes, and what was sent before is received: 2
A: send 1; close -> true; close -> false; is_closed -> true
X: is_closed -> true
A: send 2 -> Err(Closed(2)); len -> 1
X: recv -> Ok(1); recv -> Err(Disconnected)
A: len -> 0; end -> true
X: end -> true",
    "a receiver closes that is not the last, and its side has a last end still: -
A: send 3
Y: close -> true; end -> false
A: is_closed -> true; try_send 4 -> Err(Closed(4)); force_send 5 -> Err(Closed(5))
X: close -> false; len -> 1; end -> true
A: end -> true",
    "the front gives way: 1
A: force_send 1 -> Ok(None); force_send 2 -> Ok(Some(1))
X: recv -> Ok(2); end -> true
A: force_send 3 -> Err(Closed(3))",
    "one try is one call: 1
X: try_recv -> Err(Empty)
A: try_send 1; try_send 2 -> Err(Full(2))
X: len -> 1; try_recv -> Ok(1); len -> 0
A: end -> true
X: try_recv -> Err(Closed)",
    "a channel tells whether it has an item, or room: 1
A: is_empty -> true; is_full -> false; send 1; is_full -> true; len -> 1
X: is_empty -> false; is_full -> true; recv -> Ok(1); is_empty -> true; is_full -> false",
    "a channel's own iterator gives items until the end: 3 -
A: send 1; send 2; end -> true
X: next -> Some(1); next -> Some(2); next -> None",
    "so does that of a receiver: 3 -
A: send 1; send 2; send 3; leave
X: iter -> [1, 2, 3]; iter -> []",
    "an iterator that does not wait gives what is there: 2 -
A: send 1; send 2
X: try_iter -> [1, 2]; try_iter -> []; recv_for 0 -> Err(Empty)",
    "a channel of three items has that capacity: 3
A: capacity -> Some(3)
X: capacity -> Some(3)",
    "a channel without a capacity has none: -
A: capacity -> None
X: capacity -> None",
];

#[test]
fn each_story_is_right(rt: HostRuntime) {
    tell_all(&rt, Told::InTurn, &STORIES);
}

/// Whether an error is printed so: as it is, in a field of eight, and for debugging.
fn is_printed<E: Display + Debug>(alloc: Global, error: &E, expected: &str) -> bool {
    match format!(in alloc; "{error}|{error:8}|{error:?}") {
        Ok(text) => text.as_str() == expected,
        Err(_) => false,
    }
}

#[test]
fn errors_print_their_names(rt: HostRuntime) {
    let (closed, refused) = (SendError::Closed(7u64), SendError::NoMemory(8));
    let printed = [
        is_printed(rt.alloc(), &closed, "Closed|Closed  |Closed(7)"),
        is_printed(rt.alloc(), &refused, "NoMemory|NoMemory|NoMemory(8)"),
        is_printed(
            rt.alloc(),
            &Disconnected,
            "Disconnected|Disconnected|Disconnected",
        ),
    ];
    is(&rt, printed, [true, true, true]);
    let equal = [closed == refused, closed == SendError::Closed(7)];
    is(&rt, (equal, refused.into_inner()), ([false, true], 8));
}

#[test]
fn ends_print_their_names(rt: HostRuntime) {
    let (sender, receiver) = opened_surely::<u64, _>(&rt, rt.alloc(), Some(1));
    is(&rt, said(&rt, &sender).as_str(), "Sender { .. }");
    is(&rt, said(&rt, &receiver).as_str(), "Receiver { .. }");
}

#[test]
fn errors_become_those_of_io(rt: HostRuntime) {
    let closed: io::Error = SendError::Closed(1u64).into();
    let refused: io::Error = SendError::NoMemory(1u64).into();
    let gone: io::Error = Disconnected.into();
    let kinds = [closed.kind(), refused.kind(), gone.kind()];
    let wanted = [
        ErrorKind::BrokenPipe,
        ErrorKind::OutOfMemory,
        ErrorKind::BrokenPipe,
    ];
    is(&rt, kinds, wanted);
}
