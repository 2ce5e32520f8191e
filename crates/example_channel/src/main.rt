//! Two threads send, two receive and add up.
#![tactic(auto)]

use channel_handle::{Receiver, Sender, bounded};
use std::io;
use std::sync::Wait;
use std::thread::spawn;

fn send_all(rt: &impl Wait, mut sender: Sender<u64>) {
    for item in 0..1000 {
        if sender.send(rt, item).is_err() {
            return;
        }
    }
}

fn sum_all(rt: &impl Wait, receiver: Receiver<u64>) -> u64 {
    let mut sum: u64 = 0;
    for item in receiver.into_iter(rt) {
        sum = sum.wrapping_add(item);
    }
    sum
}

fn main(rt: HostRuntime) -> io::Result<()> {
    let (mut one, mut first) = bounded(rt.alloc(), 4)?;
    let two = one.split()?;
    let second = first.split()?;
    spawn(&rt, move || send_all(&rt, one))?;
    spawn(&rt, move || send_all(&rt, two))?;
    let other = spawn(&rt, move || sum_all(&rt, second))?;
    let sum = sum_all(&rt, first).wrapping_add(other.join(&rt));
    println!(rt; "{sum}")
}
