//! Ends of channels in futures: a thread forwards a stream that another collects, one of two is received from, and tasks add up what a thread sends.
#![tactic(auto)]

ghost use Rattle.std.specs.Prelude.{◌<◌, None, IfOk};
ghost use Rattle.counted_channel.specs.Polling.{HasReceived};

use channel_futures::{
    Disconnected, Incoming, Outgoing, Receiver, SendError, Sender, bounded, unbounded,
};
use futures::executor::{TaskSet, block_on};
use futures::future::{Either, select};
use futures::task::{Context, Doorbell, Poll};
use futures::{Future, FutureExt, StreamExt, stream};
use std::alloc::{AllocError, AllocGlobal};
use std::io::ErrorKind;
use std::process::ExitCode;
use std::random::RandomSource;
use std::sync::Wait;
use std::sync::atomic::AtomicU64;
use std::sync::atomic::Ordering::SeqCst;
use std::thread::Threads;
use std::{io, thread};

/// The two ends of a channel.
type Ends = (Sender<u64>, Receiver<u64>);

static VALUES: [u64; 8] = [3, 1, 4, 1, 5, 9, 2, 6];

/// Forwards a stream of the values into the channel. Gives whether all were sent.
///
/// # Errors
///
/// There was no memory, or the channel was not opened for ends in futures.
fn forward<R: Wait + RandomSource + AllocGlobal>(rt: &R, sender: Sender<u64>) -> io::Result<bool> {
    let Ok(outgoing) = Outgoing::of(sender) else {
        return Err(AllocError.into());
    };
    let sends = stream::iter(VALUES.to_vec(rt.alloc())?)
        .map(|value: u64| -> Result<u64, SendError<u64>> { Ok(value) })
        .forward(outgoing)
        .map(|sent| sent.is_ok());
    Ok(block_on(rt, sends)?)
}

/// Collects all that comes: what receives of this end gave, in their order, until one found the channel closed and empty.
///
/// # Errors
///
/// There was no memory, or the channel was not opened for ends in futures.
fn collect_all<R: Wait + RandomSource + AllocGlobal>(
    rt: &R,
    receiver: Receiver<u64>,
) -> io::Result<Vec<u64>>
    ensures { IfOk result (λ came. HasReceived receiver came.items None) }
{
    let Ok(incoming) = Incoming::of(receiver) else {
        return Err(AllocError.into());
    };
    Ok(block_on(rt, incoming.collect(rt.alloc()))??)
}

/// A thread forwards, and this one collects.
///
/// # Errors
///
/// There was no memory, or a thread cannot be started.
fn forward_and_collect<R: Threads + Wait + RandomSource + AllocGlobal + Sync>(
    rt: &R,
    ends: Ends,
) -> io::Result<(bool, Vec<u64>)> {
    let (sender, receiver) = ends;
    thread::scope(thread::scope_env(), rt, |scope| {
        let forwards = scope.spawn(move || forward(rt, sender))?;
        let came = collect_all(rt, receiver)?;
        Ok((forwards.join(rt)?, came))
    })
}

/// Receives from the one of two that has an item first. The other's future is dropped, and has received nothing.
///
/// # Errors
///
/// There was no memory.
fn receive_first<R: Wait + RandomSource + AllocGlobal>(
    rt: &R,
    one: &mut Incoming<u64>,
    two: &mut Incoming<u64>,
) -> io::Result<Result<u64, Disconnected>> {
    match block_on(rt, select(one.recv(), two.recv()))? {
        Either::Left((answer, _)) => Ok(answer),
        Either::Right((answer, _)) => Ok(answer),
    }
}

/// What comes first from two channels, where the second sends 2, and then the first 1.
///
/// # Errors
///
/// There was no memory, or a channel was not opened for ends in futures.
fn receive_in_turn<R: Wait + RandomSource + AllocGlobal>(
    rt: &R,
    left: Ends,
    right: Ends,
) -> io::Result<[Result<u64, Disconnected>; 2]> {
    let (mut left_sender, left) = left;
    let (mut right_sender, right) = right;
    let (Ok(mut one), Ok(mut two)) = (Incoming::of(left), Incoming::of(right)) else {
        return Err(AllocError.into());
    };
    right_sender.send(rt, 2)?;
    let first = receive_first(rt, &mut one, &mut two)?;
    left_sender.send(rt, 1)?;
    let then = receive_first(rt, &mut one, &mut two)?;
    Ok([first, then])
}

/// A task that adds up what comes.
#[derive(Drop)]
struct Adds<'a> {
    incoming: Incoming<u64>,
    sum: &'a AtomicU64,
}

impl Future for Adds<'_> {
    type Output = ();

    fn poll(&mut self, cx: &mut Context<'_>) -> Poll<()> {
        match self.incoming.poll_recv(cx) {
            Poll::Pending => Poll::Pending,
            Poll::Ready(Err(_)) => Poll::Ready(()),
            Poll::Ready(Ok(item)) => {
                self.sum.fetch_add(item, SeqCst);
                cx.yield_now()
            }
        }
    }
}

/// Sends the numbers below `count`.
///
/// # Errors
///
/// Where nobody receives any more.
fn send_below<R: Wait>(rt: &R, mut sender: Sender<u64>, count: u64) -> io::Result<()> {
    for item in 0..count {
        sender.send(rt, item)?;
    }
    Ok(())
}

/// Adds up in so many tasks of one thread what another thread sends.
///
/// # Errors
///
/// There was no memory, or a thread cannot be started.
fn sum_in_tasks<R: Threads + Wait + RandomSource + AllocGlobal + Sync>(
    rt: &R,
    cap: usize,
    tasks: u64,
    count: u64,
) -> io::Result<u64>
    requires { 0 < cap }
{
    let (sender, mut receiver) = bounded(rt.alloc(), cap)?;
    let sum = AtomicU64::new(0);
    let set: TaskSet<Adds<'_>> = TaskSet::new(rt, Doorbell::parking(), 1)?;
    for _ in 0..tasks {
        let Ok(incoming) = Incoming::of(receiver.split()?) else {
            break;
        };
        let task = Adds {
            incoming,
            sum: &sum,
        };
        if set.spawn(task).is_err() {
            break;
        }
    }
    drop(receiver);
    thread::scope(thread::scope_env(), rt, |scope| {
        let sends = scope.spawn(move || send_below(rt, sender, count))?;
        set.work(rt, 0);
        sends.join(rt)
    })?;
    Ok(sum.load(SeqCst))
}

/// What is told where the program does not come to its end.
fn fault_of(error: &io::Error) -> &'static str {
    match error.kind() {
        ErrorKind::WouldBlock => "a thread cannot be started",
        ErrorKind::OutOfMemory => "no memory",
        _ => "input or output failed",
    }
}

/// Shows what comes, over each kind of channel.
///
/// # Errors
///
/// There was no memory, a thread cannot be started, or what comes cannot be written.
fn show<R: Threads + Wait + RandomSource + AllocGlobal + Print + Sync>(rt: &R) -> io::Result<()> {
    let alloc = rt.alloc();
    let slot = forward_and_collect(rt, bounded(alloc, 1)?)?;
    let ring = forward_and_collect(rt, bounded(alloc, 2)?)?;
    let chain = forward_and_collect(rt, unbounded(alloc)?)?;
    println!(rt; "{slot:?} {ring:?} {chain:?}")?;
    let slots = receive_in_turn(rt, bounded(alloc, 1)?, bounded(alloc, 1)?)?;
    let rings = receive_in_turn(rt, bounded(alloc, 2)?, bounded(alloc, 2)?)?;
    let chains = receive_in_turn(rt, unbounded(alloc)?, unbounded(alloc)?)?;
    println!(rt; "{slots:?} {rings:?} {chains:?}")?;
    let slot = sum_in_tasks(rt, 1, 4, 1000)?;
    let ring = sum_in_tasks(rt, 2, 4, 1000)?;
    println!(rt; "{slot} {ring}")
}

fn main(rt: HostRuntime) -> ExitCode {
    let Err(error) = show(&rt) else {
        return ExitCode::SUCCESS;
    };
    let _ = eprintln!(&rt; "{}", fault_of(&error));
    ExitCode::from(3)
}
