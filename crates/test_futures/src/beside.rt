//! A thread that sleeps in a call, beside a future that waits for the same: what wakes those that wait wakes both.
use crate::asserts::is_in;
use crate::host::Host;
use crate::opening::{CAPACITIES, opened, outgoing};
use crate::polling::task;
use crate::stories::{Waiter, filled};
use channel_futures::{Disconnected, Receiver, SendError, Sender};
use futures::task::Poll;
use std::thread::join;
use test_support::watched::Watched;

/// What an end of the other side does.
#[derive(Clone, Copy, Debug)]
enum Act {
    /// It sends an item, or receives one, and stays.
    Calls,
    /// It closes the channel, and stays.
    Closes,
    /// It ends, as the last of its side.
    Ends,
}

static ACTS: [Act; 3] = [Act::Calls, Act::Closes, Act::Ends];

/// Receives in a thread that others look at.
fn receive<R: Host>(
    rt: &R,
    thread: &Watched,
    receiver: &mut Receiver<u64>,
) -> Result<u64, Disconnected> {
    thread.enter(rt);
    receiver.recv(rt)
}

/// Sends 7 in a thread that others look at.
fn send<R: Host>(rt: &R, thread: &Watched, sender: &mut Sender<u64>) -> Result<(), SendError<u64>> {
    thread.enter(rt);
    sender.send(rt, 7)
}

/// A sender acts once the thread is seen asleep. Gives whether it was, and the sender if it stays.
fn give<R: Host>(
    rt: &R,
    thread: &Watched,
    act: Act,
    mut sender: Sender<u64>,
) -> (bool, Option<Sender<u64>>) {
    let asleep = thread.is_seen_asleep(rt);
    let done = match act {
        Act::Calls => sender.send(rt, 5).is_ok(),
        Act::Closes => sender.close(),
        Act::Ends => return (asleep, None),
    };
    (asleep && done, Some(sender))
}

/// A receiver acts once the thread is seen asleep. Gives whether it was, and the receiver if it stays.
fn take<R: Host>(
    rt: &R,
    thread: &Watched,
    act: Act,
    mut receiver: Receiver<u64>,
) -> (bool, Option<Receiver<u64>>) {
    let asleep = thread.is_seen_asleep(rt);
    let done = match act {
        Act::Calls => receiver.recv(rt).is_ok(),
        Act::Closes => receiver.close(),
        Act::Ends => return (asleep, None),
    };
    (asleep && done, Some(receiver))
}

/// What a thread receives that sleeps beside a future, whether it was seen asleep and the sender acted, and whether the future was woken too.
fn received<R: Host + Sync>(
    rt: &R,
    cap: Option<usize>,
    act: Act,
) -> (Result<u64, Disconnected>, bool, bool) {
    let (sender, mut receiver) = opened(rt, cap);
    let waits = Waiter::new(rt, receiver.split().expect(rt, "a second receiver"));
    let thread = Watched::new();
    let (came, (acted, _sender)) = join(
        rt,
        || receive(rt, &thread, &mut receiver),
        || give(rt, &thread, act, sender),
    );
    (came, acted, waits.is_woken())
}

#[test]
fn what_receivers_wait_for_wakes_a_thread_and_a_future(rt: HostRuntime) {
    for cap in CAPACITIES {
        for act in ACTS.iter() {
            let came = match act {
                Act::Calls => Ok(5),
                Act::Closes | Act::Ends => Err(Disconnected),
            };
            is_in(
                &rt,
                (cap, *act),
                received(&rt, cap, *act),
                (came, true, true),
            );
        }
    }
}

/// The same of a thread that sends to a full channel, where a receiver acts.
fn sent<R: Host + Sync>(rt: &R, cap: usize, act: Act) -> (Result<(), SendError<u64>>, bool, bool) {
    let (mut sender, receiver) = filled(rt, cap);
    let mut sink = outgoing(rt, sender.split().expect(rt, "a second sender"));
    let waits = task(rt);
    let mut send_one = sink.send_one(9);
    let Poll::Pending = waits.poll(&mut send_one) else {
        panic!(rt; "no room, and sent")
    };
    let thread = Watched::new();
    let (sent, (acted, _receiver)) = join(
        rt,
        || send(rt, &thread, &mut sender),
        || take(rt, &thread, act, receiver),
    );
    (sent, acted, waits.is_woken())
}

#[test]
fn what_senders_wait_for_wakes_a_thread_and_a_future(rt: HostRuntime) {
    for cap in [1, 2] {
        for act in ACTS.iter() {
            let answer = match act {
                Act::Calls => Ok(()),
                Act::Closes | Act::Ends => Err(SendError::Closed(7)),
            };
            is_in(&rt, (cap, *act), sent(&rt, cap, *act), (answer, true, true));
        }
    }
}
