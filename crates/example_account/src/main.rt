//! Two threads send, two receive: each value that was sent came once.
#![tactic(auto)]

ghost use Rattle.std.specs.Prelude.{◌≡◌, ◌++◌, IfOk, IfSome};
ghost use Rattle.channel_account.specs.Told.{HasSent, HasReceived, SameItems, SawEnd};

use channel_account::{Account, Receiver, Receives, Sender, Sends, bounded};
use std::alloc::{AllocError, Global};
use std::io;
use std::sync::Wait;
use std::thread::{Threads, spawn_with};

/// Sends all of these, or gives up where nobody receives.
fn send_all(rt: &impl Wait, mut sender: Sender<u64>, values: Vec<u64>) -> Option<Account<u64>>
    ensures { IfSome result (λ account. HasSent sender values.items account) }
{
    for value in values {
        sender.send(rt, value).ok()?;
    }
    Some(sender.end())
}

/// Receives until the channel is closed and empty, or there is no memory.
fn receive_all(
    rt: &impl Wait,
    alloc: Global,
    mut receiver: Receiver<u64>,
) -> Option<(Vec<u64>, Account<u64>)>
    ensures { IfSome result (λ r. HasReceived receiver r.0.items r.1 × SawEnd r.1) }
{
    let mut values = Vec::new(alloc);
    for _ in rt.forever() {
        match receiver.recv(rt) {
            Ok(value) => values.push(value).ok()?,
            Err(_) => return Some((values, receiver.end())),
        }
    }
    unreachable!()
}

/// Sends these by two threads, and receives them by this one and another.
///
/// # Errors
///
/// A thread could not be started, or there was no memory.
fn pass<R>(
    rt: R,
    alloc: Global,
    these: Vec<u64>,
    those: Vec<u64>,
) -> Result<(Vec<u64>, Vec<u64>), AllocError>
where
    R: Threads + Wait + Copy + Send + 'static,
    ensures { IfOk result (λ came. SameItems (these.items ++ those.items) (came.0.items ++ came.1.items)) }
{
    let (mut one, mut first) = bounded(alloc, 4)?;
    let two = one.split()?;
    let second = first.split()?;
    let one = spawn_with(&rt, Sends::of(&one, &these), move || {
        send_all(&rt, one, these)
    })?;
    let two = spawn_with(&rt, Sends::of(&two, &those), move || {
        send_all(&rt, two, those)
    })?;
    let second = spawn_with(&rt, Receives::of(&second), move || {
        receive_all(&rt, alloc, second)
    })?;
    let first = receive_all(&rt, alloc, first);
    let (Some(one), Some(two), Some((came, first)), Some((more, second))) = (
        one.join(&rt),
        two.join(&rt),
        first,
        second.join(&rt),
    ) else {
        return Err(AllocError);
    };
    match one.join(two).join(first).join(second).finish() {
        Ok(_) => Ok((came, more)),
        Err(_) => Err(AllocError),
    }
}

fn main(rt: HostRuntime) -> io::Result<()> {
    let alloc = rt.alloc();
    let these = (0..1000).collect(alloc)?;
    let those = (1000..2000).collect(alloc)?;
    let (came, more) = pass(rt, alloc, these, those)?;
    println!(rt; "{}", came.len() + more.len())
}
