//! An end falls asleep while another one does what it waits for, again and again, each time at a channel of its own.
use crate::stories::{Told, tell_all};

/// How often each story is told.
const ROUNDS: u64 = 500;

static RECEIVERS: [&str; 3] = [
    "an item is sent while a receiver falls asleep: 1
X: meet; recv -> Ok(7)
A: meet; pass; send 7",
    "a sender closes while a receiver falls asleep: 1
X: meet; recv -> Err(Disconnected)
A: meet; pass; close -> true",
    "the last sender ends while a receiver falls asleep: 1
X: meet; recv -> Err(Disconnected)
A: meet; pass; end -> true",
];

#[test]
fn no_receiver_sleeps_through_what_it_waits_for(rt: HostRuntime) {
    for round in 0..ROUNDS {
        tell_all(&rt, Told::AtOnce(round), &RECEIVERS);
    }
}

static SENDERS: [&str; 3] = [
    "an item is received while a sender falls asleep: 1
A: fill; meet; send 7
X: meet; pass; recv -> Ok(7)",
    "a receiver closes while a sender falls asleep: 1
A: fill; meet; send 7 -> Err(Closed(7))
X: meet; pass; close -> true",
    "the last receiver ends while a sender falls asleep: 1
A: fill; meet; send 7 -> Err(Closed(7))
X: meet; pass; end -> true",
];

#[test]
fn no_sender_sleeps_through_what_it_waits_for(rt: HostRuntime) {
    for round in 0..ROUNDS {
        tell_all(&rt, Told::AtOnce(round), &SENDERS);
    }
}

static DROPPED: [&str; 1] = [
    "a sender is dropped while its receiver falls asleep: 1 3 -
X: meet; iter -> [1]
A: meet; send 1; leave",
];

#[test]
fn no_end_is_slept_through(rt: HostRuntime) {
    for round in 0..ROUNDS {
        tell_all(&rt, Told::AtOnce(round), &DROPPED);
    }
}
