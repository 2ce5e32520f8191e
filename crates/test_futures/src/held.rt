//! A stream whose pop has taken an item that is not written yet, since the send is held there.
ghost use Rattle.counted_channel.specs.Channel.{IsEndOf};

use crate::asserts::is_in;
use crate::host::Host;
use crate::polling::task;
use call_driver::gate::Gate;
use channel_futures::{Incoming, unbounded};
use channel_handle::{Handle, Receiver, Sender};
use futures::task::Poll;
use queue_steps::steps::{Op, WRITE, Word};
use std::sync::Arc;
use std::sync::atomic::AtomicBool;
use std::sync::atomic::Ordering::SeqCst;
use std::thread::{join, sleep};
use std::time::{Clock, Duration};
use test_support::signs::wait_for;

/// For how many milliseconds the send is held while the stream is being dropped: many times what a thousand tries take.
const HOLD: u64 = 500;

/// What the two threads show each other.
#[derive(Drop)]
struct Signs {
    /// The send has its place, and its item is not written.
    held: AtomicBool,
    /// The stream's pop has taken that item, and the stream is being dropped.
    dropping: AtomicBool,
    /// The stream is dropped.
    dropped: AtomicBool,
    /// It was dropped while the send was held.
    early: AtomicBool,
}

impl Signs {
    fn new() -> Signs {
        Signs {
            held: AtomicBool::new(false),
            dropping: AtomicBool::new(false),
            dropped: AtomicBool::new(false),
            early: AtomicBool::new(false),
        }
    }
}

/// Holds a send before its item is shown as written, until the stream is being dropped, and for a while then.
#[derive(Drop)]
struct Holding<'a, R> {
    rt: &'a R,
    signs: &'a Signs,
}

impl<R: Clock> Gate for Holding<'_, R> {
    fn pass<B: Copy>(&self, op: &Op<B>) {
        match op {
            Op::Or(Word::State(_, _), bit) if *bit == WRITE => {
                self.signs.held.store(true, SeqCst);
                if wait_for(&self.signs.dropping) {
                    sleep(self.rt, Duration::from_millis(HOLD));
                }
                let dropped = self.signs.dropped.load(SeqCst);
                self.signs.early.store(dropped, SeqCst);
            }
            _ => {}
        }
    }
}

/// Sends an item, and is held. Gives whether that is sent, and whether the channel is closed then.
fn send<R: Host>(rt: &R, signs: &Signs, sender: Sender<Arc<u64>>, item: Arc<u64>) -> (bool, bool) {
    let (channel, mut end) = sender.into_parts();
    let sent = channel
        .try_send_at(rt, &Holding { rt, signs }, &mut end, item)
        .is_ok();
    wait_for(&signs.dropped);
    let mut sender = Handle::from_parts(channel, end);
    (sent, sender.is_closed())
}

/// Polls a stream while the send is held, and drops it. Gives whether that was so and the poll is pending, and is to be made again.
fn drop_in_pop<R: Host>(rt: &R, signs: &Signs, receiver: Receiver<Arc<u64>>) -> (bool, bool) {
    let Ok(mut stream) = Incoming::of(receiver) else {
        panic!(rt; "no receiver in futures")
    };
    let polls = task(rt);
    let held = wait_for(&signs.held);
    let pending = match polls.enter(|cx| stream.poll_recv(cx)) {
        Poll::Pending => polls.is_woken(),
        Poll::Ready(_) => false,
    };
    signs.dropping.store(true, SeqCst);
    drop(stream);
    signs.dropped.store(true, SeqCst);
    (held, pending)
}

/// The drop ends the pop first, so it takes as long as the send is held. Then the receiver is ended, and the item dropped.
#[test]
fn a_stream_that_is_dropped_in_a_pop_waits_for_its_item(rt: HostRuntime) {
    let signs = Signs::new();
    let (sender, receiver) = unbounded(rt.alloc()).expect(&rt, "memory");
    let kept = Arc::new(rt.alloc(), 7).expect(&rt, "memory");
    let item = Arc::try_clone(&kept).expect(&rt, "one more owner");
    let (sent, polled) = join(
        &rt,
        || send(&rt, &signs, sender, item),
        || drop_in_pop(&rt, &signs, receiver),
    );
    let early = signs.early.load(SeqCst);
    is_in(&rt, "held, and pending", polled, (true, true));
    is_in(&rt, "sent, and closed", sent, (true, true));
    is_in(
        &rt,
        "early, and dropped",
        (early, Arc::try_unwrap(kept).ok()),
        (false, Some(7)),
    );
}
