//! Each way in which an end that is seen asleep is woken.
use crate::stories::{Told, tell_all};

static RECEIVER: [&str; 3] = [
    "an item that is sent wakes a receiver: 1 3 -
X: recv -> Ok(7)
A: sees X; send 7",
    "so does one that is sent without a wait: 1 3 -
X: recv -> Ok(7)
A: sees X; try_send 7",
    "so does one that is sent by force: 1 3 -
X: recv -> Ok(7)
A: sees X; force_send 7 -> Ok(None)",
];

#[test]
fn an_item_wakes_a_receiver(rt: HostRuntime) {
    tell_all(&rt, Told::AtOnce(0), &RECEIVER);
}

static SENDER: [&str; 2] = [
    "an item that is received wakes a sender: 1 3
A: fill; send 7
X: sees A; recv -> Ok(7)",
    "so does one that is received without a wait: 1 3
A: fill; send 7
X: sees A; try_recv -> Ok(7)",
];

#[test]
fn room_wakes_a_sender(rt: HostRuntime) {
    tell_all(&rt, Told::AtOnce(0), &SENDER);
}

static RECEIVERS: [&str; 2] = [
    "the last sender that ends wakes each receiver: 1
X: recv -> Err(Disconnected)
Y: sees X; recv -> Err(Disconnected)
A: sees X; sees Y; end -> true",
    "one that closes wakes each, and stays: 1
X: recv -> Err(Disconnected)
Y: sees X; recv -> Err(Disconnected)
A: sees X; sees Y; close -> true",
];

#[test]
fn the_last_sender_wakes_each_receiver(rt: HostRuntime) {
    tell_all(&rt, Told::AtOnce(0), &RECEIVERS);
}

static SENDERS: [&str; 2] = [
    "the last receiver that ends wakes each sender: 2
A: fill; send 7 -> Err(Closed(7))
B: sees A; send 7 -> Err(Closed(7))
X: sees A; sees B; end -> true",
    "one that closes wakes each, and stays: 2
A: fill; send 7 -> Err(Closed(7))
B: sees A; send 7 -> Err(Closed(7))
X: sees A; sees B; close -> true",
];

#[test]
fn the_last_receiver_wakes_each_sender(rt: HostRuntime) {
    tell_all(&rt, Told::AtOnce(0), &SENDERS);
}

static ONE_OF_TWO: [&str; 2] = [
    "a receiver that closes wakes another: -
X: recv -> Err(Disconnected)
Y: sees X; close -> true",
    "a sender that closes wakes another: 2
A: fill; send 7 -> Err(Closed(7))
B: sees A; close -> true",
];

#[test]
fn an_end_that_closes_wakes_another_of_its_side(rt: HostRuntime) {
    tell_all(&rt, Told::AtOnce(0), &ONE_OF_TWO);
}

/// How often two are woken. The second call mostly comes before the first that is woken looks, but not always.
const ROUNDS: u64 = 20;

static EACH_RECEIVER: [&str; 3] = [
    "two items that are sent wake two receivers: 2 -
X: recv -> Ok(7)
Y: sees X; recv -> Ok(7)
A: sees X; sees Y; send 7; send 7",
    "so do two that are sent without a wait: 2 -
X: recv -> Ok(7)
Y: sees X; recv -> Ok(7)
A: sees X; sees Y; try_send 7; try_send 7",
    "so do two that are sent by force: 2 -
X: recv -> Ok(7)
Y: sees X; recv -> Ok(7)
A: sees X; sees Y; force_send 7 -> Ok(None); force_send 7 -> Ok(None)",
];

#[test]
fn two_items_wake_two_receivers(rt: HostRuntime) {
    for round in 0..ROUNDS {
        tell_all(&rt, Told::AtOnce(round), &EACH_RECEIVER);
    }
}

static EACH_SENDER: [&str; 2] = [
    "two items that are received wake two senders: 2 3
A: fill; send 7
B: sees A; send 7
X: sees A; sees B; recv -> Ok(7); recv -> Ok(7)",
    "so do two that are received without a wait: 2 3
A: fill; send 7
B: sees A; send 7
X: sees A; sees B; try_recv -> Ok(7); try_recv -> Ok(7)",
];

#[test]
fn two_places_wake_two_senders(rt: HostRuntime) {
    for round in 0..ROUNDS {
        tell_all(&rt, Told::AtOnce(round), &EACH_SENDER);
    }
}

/// The receiver sleeps too, while a sender sleeps.
static AT_A_SLOT: [&str; 1] = [
    "two senders and their receiver wake each other: 1
A: fill; send 7
B: sees A; send 7
X: sees A; sees B; next -> Some(7); next -> Some(7); next -> Some(7)",
];

#[test]
fn two_senders_and_their_receiver_wake_each_other(rt: HostRuntime) {
    for round in 0..ROUNDS {
        tell_all(&rt, Told::AtOnce(round), &AT_A_SLOT);
    }
}
