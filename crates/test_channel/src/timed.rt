//! Calls that wait for so long at most: 600,000 milliseconds are more than a test may take.
use crate::stories::{Told, tell, tell_all};

#[test]
fn a_receive_in_vain_ends_after_its_time(rt: HostRuntime) {
    let story = "nothing comes: 1 4 -
X: idle recv_for 60 -> Err(Empty)";
    tell(&rt, Told::AtOnce(0), story);
}

#[test]
fn a_send_in_vain_ends_after_its_time(rt: HostRuntime) {
    let story = "there is no room: 1
A: send_for 600000; send_for 60 -> Err(Full(7))";
    tell(&rt, Told::AtOnce(0), story);
}

static COMES: [&str; 3] = [
    "an item ends a timed receive: 1 4 -
X: recv_for 600000 -> Ok(7)
A: pause 60; send 7",
    "a close ends a timed receive: 1 4 -
X: recv_for 600000 -> Err(Closed)
A: pause 60; close -> true",
    "the last sender ends a timed receive: 1 4 -
X: recv_for 600000 -> Err(Closed)
A: pause 60; leave",
];

#[test]
fn what_comes_ends_a_timed_receive(rt: HostRuntime) {
    tell_all(&rt, Told::AtOnce(0), &COMES);
}

#[test]
fn room_ends_a_timed_send(rt: HostRuntime) {
    let story = "room ends a timed send: 1
A: send_for 600000; send_for 600000
X: pause 60; try_recv -> Ok(7)";
    tell(&rt, Told::AtOnce(0), story);
}

#[test]
fn a_wait_in_vain_takes_nobodys_wake(rt: HostRuntime) {
    let story = "of two that wait one gives up, and the other has the item that comes then: 1 4 -
X: recv_for 20 -> Err(Empty)
Y: recv_for 600000 -> Ok(7)
A: pause 60; send 7";
    tell(&rt, Told::AtOnce(0), story);
}
