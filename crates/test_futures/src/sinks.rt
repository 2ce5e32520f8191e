//! Sinks: what one is fed comes, and its close ends nobody but itself.
ghost use Rattle.std.specs.Prelude.{◌≡◌, None};

use crate::asserts::is_in;
use crate::opening::{CAPACITIES, opened, outgoing};
use crate::polling::{given, task};
use channel_futures::Disconnected;
use futures::Sink;

/// Nothing follows the item but a close.
#[test]
fn an_item_that_a_sink_was_fed_comes(rt: HostRuntime) {
    for cap in CAPACITIES {
        let (sender, mut receiver) = opened(&rt, cap);
        let mut sink = outgoing(&rt, sender);
        is_in(&rt, cap, sink.start_send(5_u64), Ok(()));
        let closed = task(&rt).enter(|cx| sink.poll_close(cx));
        is_in(&rt, cap, given(closed), Some(Ok(())));
        drop(sink);
        is_in(&rt, cap, receiver.recv(&rt), Ok(5));
        is_in(&rt, cap, receiver.recv(&rt), Err(Disconnected));
    }
}

/// It is not closed while it holds its item, which the room wakes it for.
#[test]
fn a_full_channel_delays_a_close(rt: HostRuntime) {
    for cap in [1, 2] {
        let (mut sender, mut receiver) = opened(&rt, Some(cap));
        for _ in 0..cap {
            is_in(&rt, cap, sender.send(&rt, 0_u64), Ok(()));
        }
        let mut sink = outgoing(&rt, sender);
        let waits = task(&rt);
        is_in(&rt, cap, sink.start_send(5), Ok(()));
        let closed = waits.enter(|cx| sink.poll_close(cx));
        is_in(&rt, cap, given(closed), None);
        is_in(&rt, cap, receiver.recv(&rt), Ok(0));
        is_in(&rt, cap, waits.is_woken(), true);
        let closed = waits.enter(|cx| sink.poll_close(cx));
        is_in(&rt, cap, given(closed), Some(Ok(())));
        drop(sink);
        for _ in 1..cap {
            is_in(&rt, cap, receiver.recv(&rt), Ok(0));
        }
        is_in(&rt, cap, receiver.recv(&rt), Ok(5));
    }
}

/// Of two sinks the other one still sends.
#[test]
fn a_closed_sink_leaves_the_channel_open(rt: HostRuntime) {
    for cap in CAPACITIES {
        let (mut sender, mut receiver) = opened(&rt, cap);
        let mut other = outgoing(&rt, sender.split().expect(&rt, "a second sender"));
        let mut sink = outgoing(&rt, sender);
        let closed = task(&rt).enter(|cx| sink.poll_close(cx));
        is_in(&rt, cap, given(closed), Some(Ok(())));
        let mut send = other.send_one(7_u64);
        is_in(&rt, cap, given(task(&rt).poll(&mut send)), Some(Ok(())));
        drop(send);
        is_in(&rt, cap, receiver.recv(&rt), Ok(7));
        drop(sink);
        let (mut sender, _) = other.into_sender();
        is_in(&rt, cap, sender.send(&rt, 8), Ok(()));
        is_in(&rt, cap, receiver.recv(&rt), Ok(8));
    }
}
