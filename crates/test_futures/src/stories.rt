//! Futures that are polled by hand: what wakes them, and what becomes of one that is dropped.
ghost use Rattle.std.specs.Prelude.{◌≡◌, None};

use crate::asserts::is_in;
use crate::opening::{CAPACITIES, incoming, opened, outgoing};
use crate::polling::{given, task};
use channel_futures::{Disconnected, Incoming, Outgoing, Receiver, SendError, Sender};
use futures::Future;
use futures::task::Poll;
use futures::test::MockTask;
use std::alloc::AllocGlobal;
use std::process::Abort;
use std::random::RandomSource;
use std::sync::Wait;

/// A receiver in a future, with the task that polls it.
#[derive(Drop)]
pub(crate) struct Waiter {
    task: MockTask,
    stream: Incoming<u64>,
}

impl Waiter {
    /// One that was polled and is pending.
    pub(crate) fn new<R: Abort + RandomSource + AllocGlobal>(
        rt: &R,
        receiver: Receiver<u64>,
    ) -> Waiter {
        let mut waiter = Waiter {
            task: task(rt),
            stream: incoming(rt, receiver),
        };
        is_in(
            rt,
            "at first",
            (waiter.poll(), waiter.is_woken()),
            (None, false),
        );
        waiter
    }

    /// What a poll gives, if it gives anything.
    fn poll(&mut self) -> Option<Result<u64, Disconnected>> {
        let Waiter { task, stream } = self;
        given(task.enter(|cx| stream.poll_recv(cx)))
    }

    pub(crate) fn is_woken(&self) -> bool {
        self.task.is_woken()
    }
}

/// A new channel whose one receiver waits.
fn one_waits<R: Abort + RandomSource + AllocGlobal>(
    rt: &R,
    cap: Option<usize>,
) -> (Sender<u64>, Waiter) {
    let (sender, receiver) = opened(rt, cap);
    (sender, Waiter::new(rt, receiver))
}

/// A new channel whose two receivers wait, in this order.
fn two_wait<R: Abort + RandomSource + AllocGlobal>(
    rt: &R,
    cap: Option<usize>,
) -> (Sender<u64>, Waiter, Waiter) {
    let (sender, mut receiver) = opened(rt, cap);
    let other = receiver.split().expect(rt, "a second receiver");
    let first = Waiter::new(rt, receiver);
    (sender, first, Waiter::new(rt, other))
}

/// A new channel that is full of 0, 1, 2 and so on.
pub(crate) fn filled<R: AllocGlobal + Wait + Abort>(
    rt: &R,
    cap: usize,
) -> (Sender<u64>, Receiver<u64>) {
    let (mut sender, receiver) = opened(rt, Some(cap));
    for item in 0..cap as u64 {
        is_in(rt, cap, sender.send(rt, item), Ok(()));
    }
    (sender, receiver)
}

/// One whose sender sends in futures.
fn full<R: AllocGlobal + Wait + Abort>(rt: &R, cap: usize) -> (Outgoing<u64>, Receiver<u64>)
    ensures { result.0.held ≡ None }
{
    let (sender, receiver) = filled(rt, cap);
    (outgoing(rt, sender), receiver)
}

/// One with two such senders.
fn full_of_two<R: AllocGlobal + Wait + Abort>(
    rt: &R,
    cap: usize,
) -> (Outgoing<u64>, Outgoing<u64>, Receiver<u64>)
    ensures { (result.0.held ≡ None) × (result.1.held ≡ None) }
{
    let (mut sender, receiver) = filled(rt, cap);
    let other = sender.split().expect(rt, "a second sender");
    (outgoing(rt, sender), outgoing(rt, other), receiver)
}

#[test]
fn an_item_wakes_a_receiver(rt: HostRuntime) {
    for cap in CAPACITIES {
        let (mut sender, mut waits) = one_waits(&rt, cap);
        is_in(&rt, cap, sender.send(&rt, 5), Ok(()));
        is_in(&rt, cap, waits.is_woken(), true);
        is_in(&rt, cap, waits.poll(), Some(Ok(5)));
    }
}

#[test]
fn the_last_sender_wakes_a_receiver(rt: HostRuntime) {
    for cap in CAPACITIES {
        let (sender, mut waits) = one_waits(&rt, cap);
        drop(sender);
        is_in(&rt, cap, waits.is_woken(), true);
        is_in(&rt, cap, waits.poll(), Some(Err(Disconnected)));
    }
}

#[test]
fn room_wakes_a_sender(rt: HostRuntime) {
    for cap in [1, 2] {
        let (mut sink, mut receiver) = full(&rt, cap);
        let waits = task(&rt);
        let mut send = sink.send_one(9);
        let Poll::Pending = waits.poll(&mut send) else {
            panic!(rt; "no room, and sent")
        };
        is_in(&rt, cap, waits.is_woken(), false);
        is_in(&rt, cap, receiver.recv(&rt), Ok(0));
        is_in(&rt, cap, waits.is_woken(), true);
        is_in(&rt, cap, given(waits.poll(&mut send)), Some(Ok(())));
    }
}

#[test]
fn room_for_thousands(rt: HostRuntime) {
    let (mut sender, mut receiver) = filled(&rt, 5_000);
    is_in(
        &rt,
        "full",
        (sender.is_full(), sender.capacity()),
        (true, Some(5_000)),
    );
    is_in(&rt, "the first", receiver.recv(&rt), Ok(0));
}

#[test]
fn the_last_receiver_wakes_a_sender(rt: HostRuntime) {
    for cap in [1, 2] {
        let (mut sink, receiver) = full(&rt, cap);
        let waits = task(&rt);
        let mut send = sink.send_one(9);
        let Poll::Pending = waits.poll(&mut send) else {
            panic!(rt; "no room, and sent")
        };
        drop(receiver);
        is_in(&rt, cap, waits.is_woken(), true);
        let answer = given(waits.poll(&mut send));
        is_in(&rt, cap, answer, Some(Err(SendError::Closed(9))));
    }
}

#[test]
fn a_woken_future_that_is_dropped_wakes_the_next(rt: HostRuntime) {
    for cap in CAPACITIES {
        let (mut sender, mut receiver) = opened(&rt, cap);
        let next = receiver.split().expect(&rt, "a second receiver");
        let mut first = incoming(&rt, receiver);
        let one = task(&rt);
        let mut recv = first.recv();
        is_in(&rt, cap, given(one.poll(&mut recv)), None);
        let mut second = Waiter::new(&rt, next);
        is_in(&rt, cap, sender.send(&rt, 5), Ok(()));
        is_in(&rt, cap, (one.is_woken(), second.is_woken()), (true, false));
        drop(recv);
        is_in(&rt, cap, second.is_woken(), true);
        is_in(&rt, cap, second.poll(), Some(Ok(5)));
    }
}

#[test]
fn a_future_that_is_dropped_on_the_list_wakes_nobody(rt: HostRuntime) {
    for cap in CAPACITIES {
        let (mut sender, mut first, mut second) = two_wait(&rt, cap);
        first.stream.rest();
        is_in(&rt, cap, second.is_woken(), false);
        is_in(&rt, cap, sender.send(&rt, 6), Ok(()));
        is_in(&rt, cap, second.is_woken(), true);
        is_in(&rt, cap, second.poll(), Some(Ok(6)));
    }
}

/// Its item is not sent.
#[test]
fn a_woken_send_that_is_dropped_wakes_the_next(rt: HostRuntime) {
    for cap in [1, 2] {
        let (mut first, mut second, mut receiver) = full_of_two(&rt, cap);
        let (one, two) = (task(&rt), task(&rt));
        let mut send = first.send_one(8);
        let mut next = second.send_one(9);
        is_in(&rt, cap, given(one.poll(&mut send)), None);
        let Poll::Pending = two.poll(&mut next) else {
            panic!(&rt; "no room, and sent")
        };
        is_in(&rt, cap, receiver.recv(&rt), Ok(0));
        is_in(&rt, cap, (one.is_woken(), two.is_woken()), (true, false));
        drop(send);
        is_in(&rt, cap, two.is_woken(), true);
        is_in(&rt, cap, given(two.poll(&mut next)), Some(Ok(())));
    }
}

#[test]
fn a_send_that_is_dropped_on_the_list_leaves_it(rt: HostRuntime) {
    for cap in [1, 2] {
        let (mut first, mut second, mut receiver) = full_of_two(&rt, cap);
        let (one, two) = (task(&rt), task(&rt));
        let mut send = first.send_one(8);
        let mut next = second.send_one(9);
        is_in(&rt, cap, given(one.poll(&mut send)), None);
        is_in(&rt, cap, given(two.poll(&mut next)), None);
        drop(send);
        is_in(&rt, cap, two.is_woken(), false);
        is_in(&rt, cap, receiver.recv(&rt), Ok(0));
        is_in(&rt, cap, two.is_woken(), true);
    }
}

#[test]
fn a_dropped_stream_hands_its_wake_on_and_ends_its_receiver(rt: HostRuntime) {
    for cap in CAPACITIES {
        let (mut sender, first, mut second) = two_wait(&rt, cap);
        is_in(&rt, cap, sender.send(&rt, 7), Ok(()));
        drop(first);
        is_in(&rt, cap, second.is_woken(), true);
        is_in(&rt, cap, second.poll(), Some(Ok(7)));
        drop(second);
        is_in(&rt, cap, sender.send(&rt, 8), Err(SendError::Closed(8)));
    }
}

#[test]
fn a_close_wakes_all(rt: HostRuntime) {
    for cap in CAPACITIES {
        let (mut sender, mut first, mut second) = two_wait(&rt, cap);
        is_in(&rt, cap, sender.close(), true);
        is_in(
            &rt,
            cap,
            (first.is_woken(), second.is_woken()),
            (true, true),
        );
        is_in(&rt, cap, first.poll(), Some(Err(Disconnected)));
        is_in(&rt, cap, second.poll(), Some(Err(Disconnected)));
    }
}

/// Each send wakes one, also where the channel is not empty before, by a thread and in a future.
#[test]
fn each_item_wakes_a_receiver(rt: HostRuntime) {
    for cap in [Some(2), None] {
        let (mut sender, mut first, mut second) = two_wait(&rt, cap);
        is_in(&rt, cap, sender.send(&rt, 1), Ok(()));
        let mut sink = outgoing(&rt, sender);
        let mut send = sink.send_one(2);
        is_in(&rt, cap, given(task(&rt).poll(&mut send)), Some(Ok(())));
        is_in(
            &rt,
            cap,
            (first.is_woken(), second.is_woken()),
            (true, true),
        );
        is_in(&rt, cap, first.poll(), Some(Ok(1)));
        is_in(&rt, cap, second.poll(), Some(Ok(2)));
    }
}

/// An end goes from threads to futures and back.
#[test]
fn an_end_changes_sides(rt: HostRuntime) {
    for cap in CAPACITIES {
        let (sender, receiver) = opened(&rt, cap);
        let (mut sender, held) = outgoing(&rt, sender).into_sender();
        is_in(&rt, cap, held, None);
        is_in(&rt, cap, sender.send(&rt, 3), Ok(()));
        match incoming(&rt, receiver).into_receiver() {
            Ok(mut receiver) => is_in(&rt, cap, receiver.recv(&rt), Ok(3)),
            Err(_) => panic!(&rt; "no receiver"),
        }
    }
}
