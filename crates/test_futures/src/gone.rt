//! Nothing is kept of a channel all of whose ends are gone: neither its items nor its lists.
ghost use Rattle.std.specs.Prelude.{◌≡◌};

use crate::asserts::is_in;
use crate::opening::{CAPACITIES, incoming, opened, outgoing};
use crate::polling::task;
use channel_futures::{Incoming, Outgoing, Receiver, Sender};
use counted_channel::calls;
use futures::Sink;
use futures::task::Poll;
use futures::test::MockTask;
use std::alloc::AllocGlobal;
use std::process::Abort;
use std::random::RandomSource;
use std::sync::{Arc, Wait};
use test_support::items::{Counted, Items};
use waker_list::WakerList;

/// What a test wants of a runtime.
trait Host: Wait + RandomSource + AllocGlobal + Abort {}

impl<R: Wait + RandomSource + AllocGlobal + Abort> Host for R {}

/// Where an end is when it is dropped.
#[derive(Clone, Copy, Debug, Drop)]
enum Form {
    Thread,
    Future,
    /// In a future that was polled. A sink has an item to send.
    Polled,
    /// The same, turned back.
    Turned,
}

/// What an end's form may be.
static FORMS: [Form; 4] = [Form::Thread, Form::Future, Form::Polled, Form::Turned];

/// What the channel has when its ends are made.
#[derive(Clone, Copy, Debug, Drop)]
enum Filling {
    Empty,
    Full,
}

/// A channel and its ends.
#[derive(Clone, Copy, Debug, Drop)]
struct Case {
    cap: Option<usize>,
    filling: Filling,
    sender: Form,
    receiver: Form,
    /// In which of all orders the ends are dropped.
    order: usize,
}

impl Case {
    /// How many items are sent first.
    fn count(self) -> usize {
        match self.filling {
            Filling::Empty => 0,
            Filling::Full => self.cap.unwrap_or(3),
        }
    }
}

/// An end of the channel.
#[derive(Drop)]
enum End<'a> {
    Sender(Sender<Counted<'a>>),
    Sink(Outgoing<Counted<'a>>),
    Receiver(Receiver<Counted<'a>>),
    Stream(Incoming<Counted<'a>>),
}

/// Lists of those that wait at a channel.
#[derive(Drop)]
struct Lists {
    items: Arc<WakerList<calls::Items>>,
    room: Arc<WakerList<calls::Room>>,
}

impl Lists {
    /// Whether nobody else has a share in one.
    fn are_alone(self) -> bool {
        let Lists { items, room } = self;
        Arc::try_unwrap(items).is_ok() && Arc::try_unwrap(room).is_ok()
    }
}

/// The lists of a receiver's channel. Asserts that it has some.
fn lists_of<T: Drop>(rt: &impl Abort, receiver: Receiver<T>) -> (Receiver<T>, Lists)
    ensures { result.0 ≡ receiver }
{
    let (channel, end) = receiver.into_parts();
    let items = channel.list_of_receivers().expect(rt, "a list");
    let room = channel.list_of_senders().expect(rt, "a list");
    (Receiver::from_parts(channel, end), Lists { items, room })
}

/// A sink that was polled with an item in hand.
fn polled_sink<'a>(
    rt: &impl Abort,
    task: &MockTask,
    sender: Sender<Counted<'a>>,
    items: &'a Items,
) -> Outgoing<Counted<'a>> {
    let mut sink = outgoing(rt, sender);
    let _ = sink.start_send(Counted::of(items));
    task.enter(|cx| matches!(sink.poll_flush(cx), Poll::Pending));
    sink
}

/// A stream that was polled.
fn polled_stream<'a>(
    rt: &impl Abort,
    task: &MockTask,
    receiver: Receiver<Counted<'a>>,
) -> Incoming<Counted<'a>> {
    let mut stream = incoming(rt, receiver);
    task.enter(|cx| matches!(stream.poll_recv(cx), Poll::Pending));
    stream
}

/// A sender in this form.
fn sending<'a>(
    rt: &impl Abort,
    task: &MockTask,
    form: Form,
    sender: Sender<Counted<'a>>,
    items: &'a Items,
) -> End<'a> {
    match form {
        Form::Thread => End::Sender(sender),
        Form::Future => End::Sink(outgoing(rt, sender)),
        Form::Polled => End::Sink(polled_sink(rt, task, sender, items)),
        Form::Turned => End::Sender(polled_sink(rt, task, sender, items).into_sender().0),
    }
}

/// A receiver in this form.
fn receiving<'a>(
    rt: &impl Abort,
    task: &MockTask,
    form: Form,
    receiver: Receiver<Counted<'a>>,
) -> End<'a> {
    match form {
        Form::Thread => End::Receiver(receiver),
        Form::Future => End::Stream(incoming(rt, receiver)),
        Form::Polled => End::Stream(polled_stream(rt, task, receiver)),
        Form::Turned => match polled_stream(rt, task, receiver).into_receiver() {
            Ok(receiver) => End::Receiver(receiver),
            Err(_) => panic!(rt; "no receiver"),
        },
    }
}

/// The ends of a new channel, two of each side, of which one is in a future; and its lists.
fn ends<'a, R: Host>(
    rt: &R,
    case: Case,
    task: &MockTask,
    items: &'a Items,
) -> (Vec<End<'a>>, Lists) {
    let (mut sender, receiver) = opened(rt, case.cap);
    let (mut receiver, lists) = lists_of(rt, receiver);
    for _ in 0..case.count() {
        is_in(rt, case, sender.send(rt, Counted::of(items)).is_ok(), true);
    }
    let second = sender.split().expect(rt, "a second sender");
    let other = receiver.split().expect(rt, "a second receiver");
    let ends = vec![in rt.alloc();
        receiving(rt, task, case.receiver, receiver),
        sending(rt, task, case.sender, sender, items),
        receiving(rt, task, Form::Future, other),
        sending(rt, task, Form::Future, second, items),
    ];
    (ends.expect(rt, "memory"), lists)
}

/// How many ends there are.
const ENDS: usize = 4;

/// In how many orders they can be dropped.
const ORDERS: usize = 24;

/// Drops all, in this one of all orders.
fn drop_all(ends: Vec<End<'_>>, order: usize) {
    let mut ends = ends;
    let mut order = order;
    for _ in 0..ENDS {
        let left = ends.len();
        if left == 0 {
            return;
        }
        drop(ends.swap_remove(order % left));
        order /= left;
    }
}

/// Asserts that nothing is kept.
fn run<R: Host>(rt: &R, case: Case, task: &MockTask) {
    let items = Items::none();
    let (ends, lists) = ends(rt, case, task, &items);
    drop_all(ends, case.order);
    is_in(rt, case, items.dropped(), items.made());
    is_in(rt, case, lists.are_alone(), true);
}

#[test]
fn nothing_is_left_where_all_ends_are_gone(rt: HostRuntime) {
    let task = task(&rt);
    for cap in CAPACITIES {
        for filling in [Filling::Empty, Filling::Full] {
            for sender in FORMS {
                for receiver in FORMS {
                    for order in 0..ORDERS {
                        let case = Case {
                            cap,
                            filling,
                            sender,
                            receiver,
                            order,
                        };
                        run(&rt, case, &task);
                    }
                }
            }
        }
    }
}

/// Finishes a channel whose ends are turned into futures and back. Gives how many items are left.
fn finished<T: Drop>(rt: &impl Abort, sender: Sender<T>, receiver: Receiver<T>) -> usize
    requires { receiver.party.queue ≡ sender.party.queue }
{
    let (sender, _) = outgoing(rt, sender).into_sender();
    let Ok(receiver) = incoming(rt, receiver).into_receiver() else {
        panic!(rt; "no receiver")
    };
    let (sent, _) = sender.end();
    let (came, _) = receiver.end();
    match sent.join(came).finish() {
        Ok(queue) => queue.len(),
        Err(_) => panic!(rt; "no queue"),
    }
}

#[test]
fn ends_that_were_in_futures_finish_the_channel(rt: HostRuntime) {
    for cap in CAPACITIES {
        let items = Items::none();
        let (mut sender, receiver) = opened(&rt, cap);
        let (receiver, lists) = lists_of(&rt, receiver);
        let sent = sender.send(&rt, Counted::of(&items));
        is_in(&rt, cap, sent.is_ok(), true);
        is_in(&rt, cap, finished(&rt, sender, receiver), 1);
        is_in(&rt, cap, items.dropped(), items.made());
        is_in(&rt, cap, lists.are_alone(), true);
    }
}
