//! Two threads hand a number to and fro over two channels, and each sleeps until it comes.
use crate::asserts::is;
use crate::host::Host;
use crate::opening::opened_surely;
use channel_handle::{Receiver, Sender};
use std::thread::join;
use test_support::watched::Watched;

/// How many numbers go there and back.
const TURNS: u64 = 5_000;

/// What a thread has of two channels: it sends to one, and receives from the other.
#[derive(Drop)]
struct Side {
    sender: Sender<u64>,
    receiver: Receiver<u64>,
}

impl Side {
    /// Sends each number back. Asserts that each comes, and is sent.
    fn echo<R: Host>(&mut self, rt: &R, me: &Watched) {
        me.enter(rt);
        for number in 0..TURNS {
            is(rt, self.receiver.recv(rt), Ok(number));
            is(rt, self.sender.send(rt, number), Ok(()));
        }
    }

    /// Sends each number, the first once the other thread is seen asleep. Asserts that it is, and that each comes back.
    fn call<R: Host>(&mut self, rt: &R, other: &Watched) {
        is(rt, other.is_seen_asleep(rt), true);
        for number in 0..TURNS {
            is(rt, self.sender.send(rt, number), Ok(()));
            is(rt, self.receiver.recv(rt), Ok(number));
        }
    }
}

/// Two sides, of which each receives what the other sends.
fn two_sides<R: Host>(rt: &R) -> (Side, Side) {
    let (sender, other_receiver) = opened_surely(rt, rt.alloc(), Some(1));
    let (other_sender, receiver) = opened_surely(rt, rt.alloc(), Some(1));
    let other = Side {
        sender: other_sender,
        receiver: other_receiver,
    };
    (Side { sender, receiver }, other)
}

/// One thread sends to the other, which sends back.
fn send_to_and_fro<R: Host + Sync>(rt: &R, one: &mut Side, other: &mut Side) {
    let watched = Watched::new();
    join(rt, || other.echo(rt, &watched), || one.call(rt, &watched));
}

#[test]
fn no_turn_is_slept_through(rt: HostRuntime) {
    let (mut one, mut other) = two_sides(&rt);
    send_to_and_fro(&rt, &mut one, &mut other);
}
