//! Tasks that send numbers, and tasks that receive them.
ghost use Rattle.futures.specs.Task.{IsArmed, Keeps};
ghost use Rattle.futures.specs.Poll.{OnPending};

use channel_futures::{Incoming, Outgoing};
use futures::task::{Context, Poll};
use futures::{Future, Sink, Stream};
use std::sync::Arc;
use std::sync::atomic::AtomicU64;
use std::sync::atomic::Ordering::SeqCst;

/// What came to all receivers, and how often they were polled.
#[derive(Drop)]
pub(crate) struct Came {
    items: AtomicU64,
    sum: AtomicU64,
    ended: AtomicU64,
    polls: AtomicU64,
}

impl Came {
    pub(crate) fn new() -> Came {
        Came {
            items: AtomicU64::new(0),
            sum: AtomicU64::new(0),
            ended: AtomicU64::new(0),
            polls: AtomicU64::new(0),
        }
    }

    /// An item came.
    pub(crate) fn note(&self, item: u64) {
        self.items.fetch_add(1, SeqCst);
        self.sum.fetch_add(item, SeqCst);
    }

    /// A receiver found the channel closed and empty.
    pub(crate) fn end(&self) {
        self.ended.fetch_add(1, SeqCst);
    }

    /// How many items came, their sum, and how many receivers have ended.
    pub(crate) fn all(&self) -> (u64, u64, u64) {
        (
            self.items.load(SeqCst),
            self.sum.load(SeqCst),
            self.ended.load(SeqCst),
        )
    }

    /// How often receivers were polled.
    pub(crate) fn polls(&self) -> u64 {
        self.polls.load(SeqCst)
    }
}

/// What a task does. It has a share in what came.
#[derive(Drop)]
pub(crate) enum Work {
    Sends(Sends),
    Receives(Incoming<u64>),
    /// Receives by futures that it drops after one poll. At each second turn it also polls the stream, and waits there.
    Cancels { stream: Incoming<u64>, waits: bool },
    Over,
}

/// A task.
#[derive(Drop)]
pub(crate) struct Task {
    pub(crate) work: Work,
    pub(crate) came: Arc<Came>,
}

/// Sends all numbers below `count`.
#[derive(Drop)]
pub(crate) struct Sends {
    sink: Outgoing<u64>,
    next: u64,
    count: u64,
    /// For how many polls it rests after each number.
    rests: u64,
    rested: u64,
}

impl Sends {
    pub(crate) fn new(sink: Outgoing<u64>, count: u64, rests: u64) -> Sends {
        Sends {
            sink,
            next: 0,
            count,
            rests,
            rested: rests,
        }
    }

    /// Sends the next number once there is room.
    fn poll(&mut self, cx: &mut Context<'_>) -> Poll<()>
        ensures armed { OnPending result (IsArmed cx.new) }
        ensures kept { Keeps cx.old cx.new }
    {
        if self.rested < self.rests {
            self.rested = self.rested.wrapping_add(1);
            return cx.yield_now();
        }
        match self.sink.poll_ready(cx) {
            Poll::Pending => Poll::Pending,
            Poll::Ready(Err(_)) => Poll::Ready(()),
            Poll::Ready(Ok(())) => {
                if self.next == self.count {
                    return Poll::Ready(());
                }
                let _ = self.sink.start_send(self.next);
                self.next = self.next.wrapping_add(1);
                self.rested = 0;
                cx.yield_now()
            }
        }
    }
}

/// A number came, or the end.
fn note(came: &Came, cx: &mut Context<'_>, item: Option<u64>) -> Poll<()>
    ensures armed { OnPending result (IsArmed cx.new) }
    ensures kept { Keeps cx.old cx.new }
{
    match item {
        Some(item) => {
            came.note(item);
            cx.yield_now()
        }
        None => {
            came.end();
            Poll::Ready(())
        }
    }
}

/// Receives the next number once there is one.
fn receive(stream: &mut Incoming<u64>, cx: &mut Context<'_>, came: &Came) -> Poll<()>
    ensures armed { OnPending result (IsArmed cx.new) }
    ensures kept { Keeps cx.old cx.new }
{
    came.polls.fetch_add(1, SeqCst);
    match stream.poll_next(cx) {
        Poll::Pending => Poll::Pending,
        Poll::Ready(item) => note(came, cx, item),
    }
}

/// The same by a future that is dropped after one poll.
fn cancel(
    stream: &mut Incoming<u64>,
    cx: &mut Context<'_>,
    came: &Came,
    waits: &mut bool,
) -> Poll<()>
    ensures armed { OnPending result (IsArmed cx.new) }
    ensures kept { Keeps cx.old cx.new }
{
    *waits = !*waits;
    let polled = {
        let mut recv = stream.recv();
        recv.poll(cx)
    };
    match polled {
        Poll::Ready(answer) => note(came, cx, answer.ok()),
        Poll::Pending if *waits => receive(stream, cx, came),
        Poll::Pending => cx.yield_now(),
    }
}

impl Future for Task {
    type Output = ();

    fn poll(&mut self, cx: &mut Context<'_>) -> Poll<()> {
        let polled = match &mut self.work {
            Work::Sends(sends) => sends.poll(cx),
            Work::Receives(stream) => receive(stream, cx, &self.came),
            Work::Cancels { stream, waits } => cancel(stream, cx, &self.came, waits),
            Work::Over => Poll::Ready(()),
        };
        if let Poll::Ready(()) = &polled {
            self.work = Work::Over;
        }
        polled
    }
}
