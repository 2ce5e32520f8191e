//! Tasks on one thread and on four, also beside threads: each number comes once, all ends, and who waits takes no processor time.
use crate::asserts::is_in;
use crate::host::Host;
use crate::opening::{CAPACITIES, incoming, opened, outgoing};
use crate::tasks::{Came, Sends, Task, Work};
use channel_futures::{Incoming, Receiver, Sender};
use futures::Future;
use futures::executor::TaskSet;
use futures::task::Doorbell;
use std::alloc::AllocGlobal;
use std::process::Abort;
use std::random::RandomSource;
use std::sync::{Arc, Wait};
use std::thread::{Threads, join, sleep};
use std::time::{Clock, Duration};
use test_support::watched::time_of_all;

/// How many threads work at the tasks.
#[derive(Clone, Copy, Debug, Drop)]
enum Workers {
    One,
    Four,
}

/// What each second receiver does.
#[derive(Clone, Copy, Debug, Drop)]
enum Second {
    /// It receives as the others do.
    Receives,
    /// It drops its futures.
    Cancels,
}

/// How many senders, or receivers, are tasks, and whether another one is a thread.
#[derive(Clone, Copy, Debug, Drop)]
struct Side {
    tasks: u64,
    thread: bool,
}

impl Side {
    /// How many there are.
    fn all(self) -> u64 {
        self.tasks.wrapping_add(u64::from(self.thread))
    }
}

/// What a run is of.
#[derive(Clone, Copy, Debug, Drop)]
struct Plan {
    workers: Workers,
    senders: Side,
    receivers: Side,
    second: Second,
    /// How many numbers each sender sends.
    count: u64,
    /// For how many polls a task rests after each number that it sends.
    rests: u64,
    /// For how many seconds the threads rest before they begin.
    pause: u64,
}

const TASK: Side = Side {
    tasks: 1,
    thread: false,
};

const TASKS: Side = Side {
    tasks: 4,
    thread: false,
};

const TASKS_AND_THREAD: Side = Side {
    tasks: 4,
    thread: true,
};

/// A run of four tasks that send and four that receive, at which one thread works.
const POOL: Plan = Plan {
    workers: Workers::One,
    senders: TASKS,
    receivers: TASKS,
    second: Second::Receives,
    count: COUNT,
    rests: 0,
    pause: 0,
};

/// How many numbers each sender sends.
const COUNT: u64 = 1000;

/// Sends all numbers from a thread, if one is to send.
fn send_all<R: Wait + Clock>(rt: &R, plan: Plan, sender: Option<Sender<u64>>) {
    let Some(mut sender) = sender else { return };
    sleep(rt, Duration::from_secs(plan.pause));
    for number in 0..plan.count {
        if sender.send(rt, number).is_err() {
            return;
        }
    }
}

/// Receives all that come, in a thread, if one is to receive.
fn receive_all<R: Wait + Clock>(rt: &R, plan: Plan, receiver: Option<Receiver<u64>>, came: &Came) {
    let Some(receiver) = receiver else { return };
    sleep(rt, Duration::from_secs(plan.pause));
    for item in receiver.into_iter(rt) {
        came.note(item);
    }
    came.end();
}

/// Two threads work.
fn work_in_two<R, F>(rt: &R, set: &TaskSet<F>, first: usize)
where
    R: Wait + Threads + Sync,
    F: Future<Output = ()> + Send,
{
    join(
        rt,
        || set.work(rt, first),
        || set.work(rt, first.wrapping_add(1)),
    );
}

/// Four threads work.
fn work_in_four<R, F>(rt: &R, set: &TaskSet<F>)
where
    R: Wait + Threads + Sync,
    F: Future<Output = ()> + Send,
{
    join(rt, || work_in_two(rt, set, 0), || work_in_two(rt, set, 2));
}

/// So many threads work.
fn work<R: Wait + Threads + Sync>(rt: &R, set: &TaskSet<Task>, workers: Workers) {
    match workers {
        Workers::One => set.work(rt, 0),
        Workers::Four => work_in_four(rt, set),
    }
}

/// Puts a task into the set.
fn spawn(rt: &impl Abort, set: &TaskSet<Task>, work: Work, came: &Arc<Came>) {
    let came = Arc::try_clone(came).expect(rt, "one more owner");
    is_in(rt, "spawn", set.spawn(Task { work, came }).is_ok(), true);
}

/// What a receiver does.
fn receives(second: Second, number: u64, stream: Incoming<u64>) -> Work {
    match second {
        Second::Cancels if number % 2 == 0 => Work::Cancels {
            stream,
            waits: false,
        },
        _ => Work::Receives(stream),
    }
}

/// The tasks of a run, whose ends are parted from these.
fn tasks<R: RandomSource + AllocGlobal + Abort>(
    rt: &R,
    plan: Plan,
    sender: &mut Sender<u64>,
    receiver: &mut Receiver<u64>,
    came: &Arc<Came>,
) -> TaskSet<Task> {
    let set: TaskSet<Task> = TaskSet::new(rt, Doorbell::parking(), 4).expect(rt, "memory");
    for _ in 0..plan.senders.tasks {
        let sink = outgoing(rt, sender.split().expect(rt, "a sender"));
        spawn(
            rt,
            &set,
            Work::Sends(Sends::new(sink, plan.count, plan.rests)),
            came,
        );
    }
    for number in 0..plan.receivers.tasks {
        let stream = incoming(rt, receiver.split().expect(rt, "a receiver"));
        spawn(rt, &set, receives(plan.second, number, stream), came);
    }
    set
}

/// What is to come where so many send, and so many receive.
fn wanted(senders: u64, receivers: u64, count: u64) -> (u64, u64, u64) {
    let sum = count.wrapping_mul(count.wrapping_sub(1)) / 2;
    (
        senders.wrapping_mul(count),
        senders.wrapping_mul(sum),
        receivers,
    )
}

/// Keeps a value where it is wanted.
fn kept<T: Drop>(value: T, is_wanted: bool) -> Option<T> {
    if is_wanted { Some(value) } else { None }
}

/// Each number comes once, at a channel of this capacity, and all receivers end. Gives how often tasks that receive were polled.
fn run<R: Host + Sync>(rt: &R, cap: Option<usize>, plan: Plan) -> u64 {
    let (mut sender, mut receiver) = opened(rt, cap);
    let came = Arc::new(rt.alloc(), Came::new()).expect(rt, "memory");
    let set = tasks(rt, plan, &mut sender, &mut receiver, &came);
    let sender = kept(sender, plan.senders.thread);
    let receiver = kept(receiver, plan.receivers.thread);
    join(
        rt,
        || join(
            rt,
            || send_all(rt, plan, sender),
            || receive_all(rt, plan, receiver, &came),
        ),
        || work(rt, &set, plan.workers),
    );
    let right = wanted(plan.senders.all(), plan.receivers.all(), plan.count);
    is_in(rt, (cap, plan), came.all(), right);
    came.polls()
}

/// A run at each capacity.
fn run_all<R: Host + Sync>(rt: &R, plan: Plan) {
    for cap in CAPACITIES {
        run(rt, cap, plan);
    }
}

#[test]
fn each_number_comes_once_to_tasks_of_one_thread(rt: HostRuntime) {
    run_all(&rt, POOL);
}

#[test]
fn each_number_comes_once_to_tasks_of_four_threads(rt: HostRuntime) {
    let plan = Plan {
        workers: Workers::Four,
        ..POOL
    };
    run_all(&rt, plan);
}

#[test]
fn each_number_comes_once_to_tasks_and_threads(rt: HostRuntime) {
    let plan = Plan {
        workers: Workers::Four,
        senders: TASKS_AND_THREAD,
        receivers: TASKS_AND_THREAD,
        ..POOL
    };
    run_all(&rt, plan);
}

#[test]
fn futures_that_are_dropped_lose_nothing(rt: HostRuntime) {
    let plan = Plan {
        workers: Workers::Four,
        senders: TASKS_AND_THREAD,
        receivers: TASKS_AND_THREAD,
        second: Second::Cancels,
        ..POOL
    };
    run_all(&rt, plan);
}

/// How many hundredths of a second of processor time a wait of a second may take.
const MOST: u64 = 1;

/// Four tasks of this side wait for a second until a thread of the other one begins. Asserts that they take next to no processor time.
fn wait_idly<R: Host + Sync>(rt: &R, senders: Side, receivers: Side) {
    let plan = Plan {
        senders,
        receivers,
        count: 2,
        pause: 1,
        ..POOL
    };
    let before = time_of_all(rt).expect(rt, "the time so far");
    run(rt, Some(1), plan);
    let after = time_of_all(rt).expect(rt, "the time since");
    let spent = after.wrapping_sub(before);
    is_in(rt, (plan, spent), spent <= MOST, true);
}

const THREAD: Side = Side {
    tasks: 0,
    thread: true,
};

#[test]
fn idle_receivers_take_no_processor_time(rt: HostRuntime) {
    wait_idly(&rt, THREAD, TASKS);
}

#[test]
fn idle_senders_take_no_processor_time(rt: HostRuntime) {
    wait_idly(&rt, TASKS, THREAD);
}

/// A poll gives each number, and one after it nothing: the sender, which rests, is polled ten times more.
#[test]
fn a_receiver_is_not_polled_while_it_waits(rt: HostRuntime) {
    let plan = Plan {
        senders: TASK,
        receivers: TASK,
        rests: 10,
        ..POOL
    };
    let polls = run(&rt, Some(1), plan);
    is_in(&rt, polls, polls <= 2 * COUNT + 2, true);
}
