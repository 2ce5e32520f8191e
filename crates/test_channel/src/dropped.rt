//! An end that is dropped is ended: whoever sleeps at the other side is woken.
use crate::stories::{Told, tell};

#[test]
fn a_sleeping_receiver_ends_with_the_last_sender(rt: HostRuntime) {
    let story = "a receiver sleeps on after the first of two senders, and ends with the last: 1 3 -
X: iter -> [1, 2]
A: send 1; sees X; leave; meet
B: meet; send 2; sees X; leave";
    tell(&rt, Told::AtOnce(0), story);
}

#[test]
fn a_sleeping_sender_ends_with_the_last_receiver(rt: HostRuntime) {
    let story = "a sender ends with the last receiver: 1 3
A: fill; send 7 -> Err(Closed(7))
X: sees A; leave";
    tell(&rt, Told::AtOnce(0), story);
}
