//! Callers of channels whose ends are values of their own. None has a clause that speaks of an end.
ghost use Rattle.std.specs.Prelude.{◌<◌};

use channel_handle::{Exclusive, Receiver, Sender, Unfinished, bounded};
use std::alloc::{AllocError, Global};
use std::io;
use std::sync::Wait;
use std::thread::{Threads, spawn};

/// Sends the numbers below `count`.
///
/// # Errors
///
/// Where nobody receives any more.
pub fn send_below<R: Wait>(rt: &R, mut sender: Sender<u64>, count: u64) -> io::Result<()> {
    for item in 0..count {
        sender.send(rt, item)?;
    }
    Ok(())
}

/// Adds up here what so many threads of their own send. A thread that cannot be started ends its sender, and what the others sent is added up.
///
/// # Errors
///
/// There was no memory.
pub fn sum_of_threads<R>(rt: R, alloc: Global, cap: usize, threads: u64) -> io::Result<u64>
where
    R: Threads + Wait + Copy + Send + 'static,
    requires { 0 < cap }
{
    let (mut sender, mut receiver) = bounded(alloc, cap)?;
    for _ in 0..threads {
        let one = sender.split()?;
        if spawn(&rt, move || send_below(&rt, one, 100).is_ok()).is_err() {
            break;
        }
    }
    drop(sender);
    let mut sum: u64 = 0;
    for item in receiver.iter(&rt) {
        sum = sum.wrapping_add(item);
    }
    Ok(sum)
}

/// A place to which more senders come.
#[derive(Drop)]
pub struct Desk {
    sender: Sender<u64>,
}

impl Desk {
    /// One sender more.
    ///
    /// # Errors
    ///
    /// Where there may be no more.
    pub fn hire(&mut self) -> Result<Sender<u64>, AllocError> {
        self.sender.split()
    }
}

/// The items that are there.
///
/// # Errors
///
/// There was no memory.
pub fn waiting<R: Wait>(
    rt: &R,
    alloc: Global,
    receiver: &mut Receiver<u64>,
) -> Result<Vec<u64>, AllocError> {
    let mut items = Vec::new(alloc);
    for item in receiver.try_iter(rt) {
        items.push(item)?;
    }
    Ok(items)
}

/// Sends both values, receives one, and hands on what is left. Each end is the last of its side, and no party is missing, so no arm stands for another answer.
///
/// # Errors
///
/// There was no memory.
pub fn left_of<R: Wait>(
    rt: &R,
    alloc: Global,
    first: u64,
    second: u64,
) -> Result<Exclusive<u64>, AllocError> {
    let (mut sender, mut receiver) = bounded(alloc, 2)?;
    let _ = sender.send(rt, first);
    let _ = sender.send(rt, second);
    let _ = receiver.recv(rt);
    let (sent, true) = sender.end() else {
        unreachable!()
    };
    let (came, true) = receiver.end() else {
        unreachable!()
    };
    match sent.join(came).finish() {
        Ok(left) => Ok(left),
        Err(Unfinished::Shared(_)) => Err(AllocError),
        Err(Unfinished::Missing(..)) => unreachable!(),
    }
}
