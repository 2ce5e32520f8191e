//! An end that waits takes next to no processor time.
use crate::stories::{Told, tell};

#[test]
fn an_idle_receiver_takes_no_processor_time(rt: HostRuntime) {
    let story = "a receiver waits for a second: -
X: idle recv -> Ok(7)
A: sees X; pause 1000; send 7";
    tell(&rt, Told::AtOnce(0), story);
}

#[test]
fn an_idle_iterator_takes_no_processor_time(rt: HostRuntime) {
    let story = "an iterator waits for a second: -
X: idle next -> None
A: sees X; pause 1000; end -> true";
    tell(&rt, Told::AtOnce(0), story);
}

#[test]
fn a_sender_at_a_full_queue_takes_no_processor_time(rt: HostRuntime) {
    let story = "a sender waits for a second: 1
A: fill; idle send 7
X: sees A; pause 1000; recv -> Ok(7)";
    tell(&rt, Told::AtOnce(0), story);
}

#[test]
fn an_item_sent_by_force_wakes_no_sender(rt: HostRuntime) {
    let story = "a sender sleeps while another one sends by force, and closes: 1
A: fill; idle send 7 -> Err(Closed(7))
B: sees A; force 200000 -> true; close -> true";
    tell(&rt, Told::AtOnce(0), story);
}
