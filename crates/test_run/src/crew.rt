//! Crews of the mode `threads` as no run of the program has them: on queues that are closed, or have items before, or whose blocks are refused, and at work within one another's calls.
ghost use Rattle.std.specs.Prelude.{◌≡◌, ◌<◌, ◌+◌, ◌*◌, ◌^◌, true, IfOk};
ghost use Rattle.concurrent_queue.specs.Shared.{IsPartyOf};

use crate::asserts::is_in;
use app_threads::counts::judge;
use app_threads::crew::{Plan, WorkResult, run_all};
use app_threads::limit::NO_LIMIT;
use concurrent_queue::{ConcurrentQueue, Party};
use mem_blocks::null_testable::NullTestable;
use std::alloc::AllocError;
use std::process::Abort;
use std::sync::Wait;
use std::thread::{Threads, join, yield_now};
use test_support::allocators::{Heap, Refusal};

/// A queue that asks such a heap for its memory.
pub type Queue<'a> = ConcurrentQueue<u64, &'a Heap>;

/// When another party closes the queue.
#[derive(Clone, Copy)]
pub enum Closing {
    Never,
    /// Before the threads begin.
    Before,
    /// While they work.
    Meanwhile,
}

/// What a crew is given, and what is to be seen of it.
pub struct Row {
    pub name: &'static str,
    /// The capacity of its queue, if there is one.
    pub cap: Option<usize>,
    /// Which requests for memory are refused.
    pub refusal: Refusal,
    /// Whether the first request of a thread is held until there is another one.
    pub holds: bool,
    /// What the queue has before.
    pub before: &'static [u64],
    pub closing: Closing,
    pub pushers: u64,
    pub poppers: u64,
    pub items: u64,
    /// How many items each popper pops.
    pub share: u64,
    /// How often each item is to come.
    pub times: u64,
    pub seen: &'static str,
}

impl Row {
    /// What the threads are to do.
    pub fn plan(&self) -> Plan {
        Plan {
            pushers: self.pushers,
            poppers: self.poppers,
            items: self.items,
            share: self.share,
            limit: NO_LIMIT,
        }
    }

    /// What is seen of the work of its threads, in words.
    pub fn told<R: Abort + AllocGlobal>(&self, rt: &R, work: &WorkResult) -> String {
        let finding = judge(self.times, &work.counts);
        let done = if work.done { "all done" } else { "not done" };
        format!(in rt.alloc(); "{finding}, {done}").expect(rt, "memory")
    }
}

/// No threads, on a queue without a capacity.
pub const IDLE: Row = Row {
    name: "",
    cap: None,
    refusal: Refusal::Never,
    holds: false,
    before: &[],
    closing: Closing::Never,
    pushers: 0,
    poppers: 0,
    items: 0,
    share: 0,
    times: 0,
    seen: "nothing",
};

/// No threads, on a slot that was closed before.
const CLOSED: Row = Row {
    cap: Some(1),
    closing: Closing::Before,
    items: 2,
    share: 2,
    seen: "2 values, each counted 0 times, not done, left 0 closed",
    ..IDLE
};

/// A thread that pushes one item, on a queue whose first block may be refused.
pub const PUSHER: Row = Row {
    pushers: 1,
    items: 1,
    share: 2,
    ..IDLE
};

static ROWS: [Row; 12] = [
    Row {
        name: "nothing_is_done_on_a_closed_queue, by pushers",
        pushers: 3,
        ..CLOSED
    },
    Row {
        name: "nothing_is_done_on_a_closed_queue, by poppers",
        poppers: 3,
        ..CLOSED
    },
    Row {
        name: "nothing_is_done_on_a_closed_queue, by both",
        pushers: 2,
        poppers: 2,
        ..CLOSED
    },
    Row {
        name: "a_close_ends_threads_that_wait, for a place that nobody makes free",
        before: &[1],
        closing: Closing::Meanwhile,
        pushers: 3,
        seen: "2 values, each counted 0 times, not done, left 1 closed",
        ..CLOSED
    },
    Row {
        name: "a_close_ends_threads_that_wait, for items that nobody pushes",
        closing: Closing::Meanwhile,
        poppers: 3,
        ..CLOSED
    },
    // The item that a closed queue still has is popped and counted; then the poppers find it closed.
    Row {
        name: "what_a_closed_queue_has_is_counted",
        before: &[1],
        pushers: 1,
        poppers: 2,
        share: 1,
        seen: "value 1 counted 1 times, not done, left 0 closed",
        ..CLOSED
    },
    Row {
        name: "no_popper_pops_more_than_its_share",
        cap: Some(5),
        before: &[0, 1, 2, 3, 4],
        poppers: 2,
        items: 5,
        times: 1,
        seen: "value 4 counted 0 times, all done, left 1 closed",
        ..CLOSED
    },
    // All parties are joined again at the end of a run, and nothing is left.
    Row {
        name: "a_run_gives_its_party_back",
        cap: Some(1),
        pushers: 4,
        poppers: 2,
        items: 100,
        share: 200,
        times: 4,
        seen: "100 values, each counted 4 times, all done, left 0 open",
        ..IDLE
    },
    // While one thread's push waits for the first block, another thread's push asks for it too. On one thread no other call is made before that push is answered.
    Row {
        name: "two_pushes_of_a_crew_ask_for_memory_at_once",
        holds: true,
        pushers: 2,
        items: 1,
        seen: "1 values, each counted 0 times, all done, left 2 open",
        ..IDLE
    },
    // The first request is for the queue, and the next one for a block. A thread that is refused a block reports that not all was done.
    Row {
        name: "an_item_without_a_block_is_not_done, without a queue",
        refusal: Refusal::Nth(1),
        ..PUSHER
    },
    Row {
        name: "an_item_without_a_block_is_not_done",
        refusal: Refusal::Nth(2),
        seen: "1 values, each counted 0 times, not done, left 0 closed",
        ..PUSHER
    },
    Row {
        name: "an_item_without_a_block_is_not_done, with a block",
        refusal: Refusal::Nth(3),
        seen: "1 values, each counted 0 times, all done, left 1 open",
        ..PUSHER
    },
];

/// An empty open queue of this capacity, or without one, and its only party.
pub fn open<'a>(
    rt: &impl Abort,
    heap: &'a Heap,
    cap: Option<usize>,
) -> Result<(Queue<'a>, Party<u64>), AllocError>
    ensures { IfOk result (λ r. IsPartyOf r.1 r.0) }
{
    match cap {
        Some(0) => panic!(rt; "a capacity of 0"),
        Some(slots) => Queue::bounded(heap, slots),
        None => Queue::unbounded(heap),
    }
}

/// Pushes these items.
fn push_each<R: Abort + Wait>(rt: &R, queue: &Queue<'_>, party: &mut Party<u64>, items: &[u64])
    requires { IsPartyOf party.old queue.now }
    ensures { IsPartyOf party.new queue.now }
{
    for item in items {
        let pushed = queue.push(rt, party, *item).is_ok();
        is_in(rt, *item, pushed, true);
    }
}

/// Whether there are so few threads that all that they pop can be counted.
pub fn are_few(plan: Plan) -> bool
    ensures { result ≡ true → (plan.pushers + plan.poppers < 2 ^ 64) × ((plan.pushers + plan.poppers) * plan.share < 2 ^ 64) }
{
    match plan.pushers.checked_add(plan.poppers) {
        Some(threads) => threads.checked_mul(plan.share).is_some(),
        None => false,
    }
}

/// Runs the threads of a plan, for whose counts there is to be memory.
fn work_of<A: NullTestable + Send + Sync, R: Abort + Threads + Wait + Sync + AllocGlobal>(
    rt: &R,
    queue: &ConcurrentQueue<u64, A>,
    party: Party<u64>,
    plan: Plan,
) -> WorkResult
    requires { IsPartyOf party queue.now }
    ensures { IsPartyOf result.party queue.now }
{
    if !are_few(plan) {
        panic!(rt; "too many threads");
    }
    run_all(rt, rt.alloc(), queue, party, plan).expect(rt, "memory for the counts")
}

/// How often the thread that closes a queue gives others turns before.
const TURNS: u64 = 1_000;

/// Closes the queue after a while.
fn close_later<A: NullTestable>(
    queue: &ConcurrentQueue<u64, A>,
    mut party: Party<u64>,
) -> Party<u64>
    requires { IsPartyOf party queue.now }
    ensures { IsPartyOf result queue.now }
{
    for _ in 0..TURNS {
        yield_now();
    }
    queue.close(&mut party);
    party
}

/// Runs the threads of a plan, and closes the queue meanwhile.
fn work_beside_a_close<
    A: NullTestable + Send + Sync,
    R: Abort + Threads + Wait + Sync + AllocGlobal,
>(rt: &R, queue: &ConcurrentQueue<u64, A>, party: Party<u64>, plan: Plan) -> WorkResult
    requires { IsPartyOf party queue.now }
    ensures { IsPartyOf result.party queue.now }
{
    let Ok((first, closer)) = queue.split(party) else {
        panic!(rt; "no second party")
    };
    let (work, closer) = join(
        rt,
        || -> WorkResult
            requires { IsPartyOf first queue.now }
            ensures { IsPartyOf result.party queue.entry.now }
        { work_of(rt, queue, first, plan) },
        || close_later(queue, closer),
    );
    let WorkResult {
        party,
        counts,
        done,
    } = work;
    WorkResult {
        party: queue.join(party, closer),
        counts,
        done,
    }
}

/// Lets the threads of a row work on its queue, which may be closed before or meanwhile.
fn work_on<R: Abort + Threads + Wait + Sync + AllocGlobal>(
    rt: &R,
    heap: &Heap,
    queue: &Queue<'_>,
    mut party: Party<u64>,
    row: &Row,
) -> WorkResult
    requires { IsPartyOf party queue.now }
    ensures { IsPartyOf result.party queue.now }
{
    push_each(rt, queue, &mut party, row.before);
    if row.holds {
        heap.hold_until_another();
    }
    match row.closing {
        Closing::Never => work_of(rt, queue, party, row.plan()),
        Closing::Before => {
            queue.close(&mut party);
            work_of(rt, queue, party, row.plan())
        }
        Closing::Meanwhile => work_beside_a_close(rt, queue, party, row.plan()),
    }
}

/// What is left once all parties are joined, in words.
fn left<R: Abort + AllocGlobal>(rt: &R, queue: Queue<'_>, party: Party<u64>) -> String
    requires { IsPartyOf party queue }
{
    let text = match queue.finish(party) {
        Ok(alone) => {
            let end = if alone.is_closed() { "closed" } else { "open" };
            format!(in rt.alloc(); ", left {} {end}", alone.len())
        }
        Err(_) => String::from_str(rt.alloc(), ", a party is missing"),
    };
    text.expect(rt, "memory")
}

/// What is seen of a crew; nothing where there is no queue.
fn see<R: Abort + Threads + Wait + Sync + AllocGlobal>(rt: &R, heap: &Heap, row: &Row) -> String {
    let Ok((queue, party)) = open(rt, heap, row.cap) else {
        return String::from_str(rt.alloc(), "nothing").expect(rt, "memory");
    };
    let work = work_on(rt, heap, &queue, party, row);
    let mut seen = row.told(rt, &work);
    let WorkResult {
        party,
        counts: _,
        done: _,
    } = work;
    let left = left(rt, queue, party);
    seen.push_str(left.as_str()).expect(rt, "memory");
    seen
}

#[test]
fn crews_do_what_they_can(rt: HostRuntime) {
    for row in ROWS.iter() {
        let heap = Heap::new(rt.alloc(), row.refusal);
        let seen = see(&rt, &heap, row);
        let at_once = heap.held_until_let_go();
        is_in(
            &rt,
            row.name,
            (seen.as_str(), at_once),
            (row.seen, row.holds),
        );
    }
}
