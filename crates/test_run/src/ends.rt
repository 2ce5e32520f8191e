//! Crews of the mode `channel` as no run of the program has them: on channels whose blocks are refused, or that have more than is received, and at work within one another's calls.
ghost use Rattle.std.specs.Prelude.{◌≡◌};
ghost use Rattle.std.specs.Option.{IfSome};
ghost use Rattle.counted_channel.specs.Channel.{IsEndOf};

use crate::asserts::is_in;
use crate::crew::{IDLE, PUSHER, Row, are_few, open};
use app_threads::counts::{Finding, judge};
use app_threads::crew::WorkResult;
use app_threads::ends::run_all;
use counted_channel::{Channel, Receiver, Sender, channel};
use std::process::Abort;
use std::sync::Wait;
use std::thread::Threads;
use test_support::allocators::{Heap, Refusal};

static ROWS: [Row; 4] = [
    // While one thread's send waits for the first block, another thread's send asks for it too. On one thread no other call is made before that send is answered.
    Row {
        name: "two_sends_of_a_crew_ask_for_memory_at_once",
        holds: true,
        pushers: 2,
        poppers: 1,
        items: 1,
        share: 3,
        times: 2,
        seen: "1 values, each counted 2 times, all done",
        ..IDLE
    },
    // The first requests are for the queue and the counts of its ends, and the next one is for a block. A thread that is refused a block reports that not all was done.
    Row {
        name: "an_item_without_a_block_is_not_done, without a channel",
        refusal: Refusal::Nth(3),
        poppers: 1,
        ..PUSHER
    },
    Row {
        name: "an_item_without_a_block_is_not_done",
        refusal: Refusal::Nth(4),
        poppers: 1,
        seen: "1 values, each counted 0 times, not done",
        ..PUSHER
    },
    Row {
        name: "an_item_without_a_block_is_not_done, with a block",
        refusal: Refusal::Nth(5),
        poppers: 1,
        times: 1,
        seen: "1 values, each counted 1 times, all done",
        ..PUSHER
    },
];

/// A channel, with an end of each side.
type Opened<'a> = (Channel<u64, &'a Heap>, Sender<u64>, Receiver<u64>);

/// A channel without a capacity, where there is memory.
fn open_channel<'a>(rt: &impl Abort, heap: &'a Heap) -> Option<Opened<'a>>
    ensures { IfSome result (λ r. IsEndOf r.1 r.0 × IsEndOf r.2 r.0) }
{
    let Ok((queue, party)) = open(rt, heap, None) else {
        return None;
    };
    match channel(heap, queue, party) {
        Ok(opened) => Some(opened),
        Err(_) => None,
    }
}

/// Runs the threads of a crew, for whose counts there is to be memory.
fn work_of<R: Abort + Threads + Wait + Sync + AllocGlobal>(
    rt: &R,
    channel: &Channel<u64, &Heap>,
    sender: Sender<u64>,
    receiver: Receiver<u64>,
    row: &Row,
) -> WorkResult
    requires { IsEndOf sender channel.now × IsEndOf receiver channel.now }
{
    let plan = row.plan();
    if !are_few(plan) {
        panic!(rt; "too many threads");
    }
    run_all(rt, rt.alloc(), channel, sender, receiver, plan).expect(rt, "memory for the counts")
}

/// The work of a crew; nothing where there is no channel.
fn work<R: Abort + Threads + Wait + Sync + AllocGlobal>(
    rt: &R,
    heap: &Heap,
    row: &Row,
) -> Option<WorkResult> {
    match open_channel(rt, heap) {
        Some((channel, sender, receiver)) => {
            if row.holds {
                heap.hold_until_another();
            }
            Some(work_of(rt, &channel, sender, receiver, row))
        }
        None => None,
    }
}

#[test]
fn channels_pass_what_they_can(rt: HostRuntime) {
    for row in ROWS.iter() {
        let heap = Heap::new(rt.alloc(), row.refusal);
        let seen = match work(&rt, &heap, row) {
            Some(work) => row.told(&rt, &work),
            None => String::from_str(rt.alloc(), "nothing").expect(&rt, "memory"),
        };
        let at_once = heap.held_until_let_go();
        is_in(
            &rt,
            row.name,
            (seen.as_str(), at_once),
            (row.seen, row.holds),
        );
    }
}

/// One thread sends five items, and two receive two each.
static SHARED: Row = Row {
    pushers: 1,
    poppers: 2,
    items: 5,
    share: 2,
    times: 1,
    ..IDLE
};

#[test]
fn no_receiver_receives_more_than_its_share(rt: HostRuntime) {
    let heap = Heap::new(rt.alloc(), Refusal::Never);
    let finding = match work(&rt, &heap, &SHARED) {
        Some(work) => Some(judge(SHARED.times, &work.counts)),
        None => None,
    };
    let wanted = Some(Finding::Wrong { value: 4, times: 0 });
    is_in(&rt, "a share", finding, wanted);
}
