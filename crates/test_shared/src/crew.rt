//! Parties of a queue that work at numbers, alone or in threads that wait for one another.
ghost use Rattle.std.specs.Prelude.{◌<◌};
ghost use Rattle.concurrent_queue.specs.Shared.{IsPartyOf};
ghost use denote.Param.Send.{IsSync};

use crate::calls::{Memory, begin, take_up};
use crate::opening::part;
use concurrent_queue::{ConcurrentQueue, Exclusive, Outcome, Party, PopError, PushError};
use mem_blocks::null_testable::NullTestable;
use queue_steps::model::{Call, Reply};
use std::alloc::{Allocator, Global};
use std::ops::Range;
use std::process::Abort;
use std::sync::Wait;
use std::sync::atomic::{AtomicBool, AtomicU64, Ordering};
use std::thread::{Threads, join, yield_now};
use test_support::allocators::{Heap, Refusal};
use test_support::signs::wait_for;

/// How many turns a thread takes.
pub(crate) const TURNS: u64 = 25_000;

/// What threads share: how often each value came out, how many threads push, and whether all threads have come.
#[derive(Drop)]
pub(crate) struct Board {
    counts: Vec<AtomicU64>,
    running: AtomicU64,
    threads: u64,
    here: AtomicU64,
    all_are_here: AtomicBool,
    /// Where a queue without a capacity may have its blocks.
    pub(crate) heap: Heap,
}

impl Board {
    /// A board for so many threads and values. Asserts that there is memory.
    pub(crate) fn of(rt: &impl Abort, alloc: Global, threads: usize, values: u64) -> Board {
        let mut counts = Vec::new(alloc);
        for _ in 0..values {
            counts.push(AtomicU64::new(0)).expect(rt, "memory");
        }
        let threads = threads as u64;
        Board {
            counts,
            running: AtomicU64::new(threads / 2),
            threads,
            here: AtomicU64::new(0),
            all_are_here: AtomicBool::new(false),
            heap: Heap::new(alloc, Refusal::Never),
        }
    }

    /// Comes, and waits until all threads have, though not for ever. Gives whether they have: on one thread after another they never do.
    fn come(&self) -> bool {
        let before = self.here.fetch_add(1, Ordering::SeqCst);
        if before.wrapping_add(1) == self.threads {
            self.all_are_here.store(true, Ordering::SeqCst);
        }
        wait_for(&self.all_are_here)
    }

    pub(crate) fn count(&self, value: u64) {
        if let Some(count) = self.counts.get(value as usize) {
            count.fetch_add(1, Ordering::SeqCst);
        }
    }

    pub(crate) fn each_came(&self, times: u64) -> bool {
        for count in &self.counts {
            if count.load(Ordering::SeqCst) != times {
                return false;
            }
        }
        true
    }
}

/// What a party does with a number, and finds.
#[derive(Clone, Copy)]
pub(crate) enum Deed {
    /// Pushes it, and tries again where the queue is full.
    Push,
    /// Pushes it, which has to be accepted.
    PushOnce,
    /// Pushes it, which has to be accepted but for this one, which is handed back for want of memory.
    PushBut(u64),
    /// Pops, which has to give an item.
    PopOnce,
    /// Pushes it, which has to be accepted, and leaves one item more than it says.
    PushToLen,
    /// Pops, which has to give an item, and leaves so many items less than this as there are numbers up to it.
    PopToLen(u64),
    /// Pops it.
    PopInOrder,
    /// Pushes until it is accepted, and then pops, which has to give an item.
    PushAndPop,
    /// Pushes by force, and pops where it displaced nothing, which has to give an item.
    ForceAndPop,
}

/// What a thread does with the numbers that it is given.
#[derive(Clone, Copy)]
pub(crate) enum Role {
    /// This with each.
    Each(Deed),
    /// This with each, and finds no more items in the queue then than so many.
    EachWithin(Deed, usize),
    /// Pushes each, which has to be accepted, and lets the request go then that is held.
    PushAndLetGo,
    /// Pops once a request is held, finds the queue empty, and lets the request go.
    PopWhileHeld,
    /// Pops as many items as there are numbers, and tries again where the queue is empty.
    Pop,
    /// Pushes each by calls that never wait.
    PushByTurns,
    /// Pops as many by such calls, and tries again where the queue is empty.
    PopByTurns,
    /// Pushes each by force, and counts what it displaces.
    Force,
    /// Pops until no thread pushes and the queue is empty.
    Drain,
}

/// What one thread does, and with which numbers: from the first on, below the second.
pub(crate) type Assignment = (Role, u64, u64);

/// Pushes an item, and tries again while the queue is full.
pub(crate) fn push_one<T: Drop, A: NullTestable, R: Wait>(
    rt: &R,
    queue: &ConcurrentQueue<T, A>,
    party: &mut Party<T>,
    item: T,
)
    requires { IsPartyOf party.old queue.now }
    ensures { IsPartyOf party.new queue.now }
{
    let mut next = item;
    for _ in rt.forever() {
        match queue.push(rt, party, next) {
            Ok(()) => return,
            Err(error) => {
                next = error.into_inner();
                yield_now();
            }
        }
    }
    unreachable!()
}

/// Pops an item, and tries again while the queue is empty.
pub(crate) fn pop_one<T: Drop, A: Allocator, R: Wait>(
    rt: &R,
    queue: &ConcurrentQueue<T, A>,
    party: &mut Party<T>,
) -> T
    requires { IsPartyOf party.old queue.now }
    ensures { IsPartyOf party.new queue.now }
{
    for _ in rt.forever() {
        match queue.pop(rt, party) {
            Ok(item) => return item,
            Err(_) => yield_now(),
        }
    }
    unreachable!()
}

/// Does this with a number. Gives false where what had to be found was not.
pub(crate) fn find<A: NullTestable, R: Wait>(
    rt: &R,
    queue: &ConcurrentQueue<u64, A>,
    party: &mut Party<u64>,
    deed: Deed,
    number: u64,
) -> bool
    requires { IsPartyOf party.old queue.now }
    ensures { IsPartyOf party.new queue.now }
{
    match deed {
        Deed::Push => {
            push_one(rt, queue, party, number);
            true
        }
        Deed::PushBut(refused) if refused == number => {
            queue.push(rt, party, number) == Err(PushError::NoMemory(number))
        }
        Deed::PushOnce | Deed::PushBut(_) => queue.push(rt, party, number).is_ok(),
        Deed::PopOnce => queue.pop(rt, party).is_ok(),
        Deed::PushToLen => {
            let accepted = queue.push(rt, party, number).is_ok();
            accepted && queue.len(rt, party) as u64 == number.wrapping_add(1)
        }
        Deed::PopToLen(items) => {
            let came = queue.pop(rt, party).is_ok();
            let left = queue.len(rt, party) as u64;
            came && left.wrapping_add(number) == items.wrapping_sub(1)
        }
        Deed::PopInOrder => pop_one(rt, queue, party) == number,
        Deed::PushAndPop => {
            push_one(rt, queue, party, number);
            queue.pop(rt, party).is_ok()
        }
        Deed::ForceAndPop => match queue.force_push(rt, party, number) {
            Ok(Some(_)) => true,
            Ok(None) => queue.pop(rt, party).is_ok(),
            Err(_) => false,
        },
    }
}

/// Does this with each of these numbers. Gives false where what had to be found was not.
pub(crate) fn find_each<A: NullTestable, R: Wait>(
    rt: &R,
    queue: &ConcurrentQueue<u64, A>,
    party: &mut Party<u64>,
    deed: Deed,
    numbers: Range<u64>,
) -> bool
    requires { IsPartyOf party.old queue.now }
    ensures { IsPartyOf party.new queue.now }
{
    let mut right = true;
    for number in numbers {
        right = find(rt, queue, party, deed, number) && right;
    }
    right
}

/// Makes a call that never waits: it is begun, taken up until it has its reply, and begun again until it is accepted. Counts the value that comes out.
fn answer_surely<A: Memory, R: Wait + Abort>(
    rt: &R,
    queue: &ConcurrentQueue<u64, A>,
    party: Party<u64>,
    board: &Board,
    call: Call<u64>,
) -> Party<u64>
    requires { IsPartyOf party queue.now }
    ensures { IsPartyOf result queue.now }
{
    let mut outcome = begin(queue, party, call);
    for _ in rt.forever() {
        outcome = match outcome {
            Outcome::Done(party, reply) => match reply {
                Reply::Push(Ok(())) => return party,
                Reply::Pop(Ok(value)) => {
                    board.count(value);
                    return party;
                }
                _ => {
                    yield_now();
                    begin(queue, party, call)
                }
            },
            Outcome::Pending(pending) => {
                yield_now();
                take_up(rt, queue, Outcome::Pending(pending))
            }
        };
    }
    unreachable!()
}

/// One turn of a thread. Gives false where what had to be found was not.
fn turn<A: NullTestable, R: Wait>(
    rt: &R,
    queue: &ConcurrentQueue<u64, A>,
    party: &mut Party<u64>,
    board: &Board,
    role: Role,
    number: u64,
) -> bool
    requires { IsPartyOf party.old queue.now }
    ensures { IsPartyOf party.new queue.now }
{
    match role {
        Role::Each(deed) => find(rt, queue, party, deed, number),
        Role::EachWithin(deed, most) => {
            let right = find(rt, queue, party, deed, number);
            queue.len(rt, party) <= most && right
        }
        Role::PushAndLetGo => {
            let accepted = queue.push(rt, party, number).is_ok();
            board.heap.let_go();
            accepted
        }
        Role::PopWhileHeld => {
            let held = board.heap.comes_to_hold();
            let popped = queue.pop(rt, party);
            board.heap.let_go();
            held && popped == Err(PopError::Empty)
        }
        Role::Pop => {
            board.count(pop_one(rt, queue, party));
            true
        }
        Role::Force => {
            if let Ok(Some(old)) = queue.force_push(rt, party, number) {
                board.count(old);
            }
            true
        }
        Role::PushByTurns | Role::PopByTurns | Role::Drain => true,
    }
}

/// Pops until no thread pushes and the queue is empty.
fn drain<A: Allocator, R: Wait>(
    rt: &R,
    queue: &ConcurrentQueue<u64, A>,
    party: &mut Party<u64>,
    board: &Board,
)
    requires { IsPartyOf party.old queue.now }
    ensures { IsPartyOf party.new queue.now }
{
    for _ in rt.forever() {
        let last = board.running.load(Ordering::SeqCst) == 0;
        match queue.pop(rt, party) {
            Ok(value) => board.count(value),
            Err(_) => {
                if last {
                    return;
                }
                yield_now();
            }
        }
    }
}

/// All turns of a thread, which begin once all threads have come.
pub(crate) fn act<A: Memory, R: Wait + Abort>(
    rt: &R,
    queue: &ConcurrentQueue<u64, A>,
    mut party: Party<u64>,
    board: &Board,
    assignment: Assignment,
) -> (Party<u64>, bool)
    requires { IsPartyOf party queue.now }
    ensures { IsPartyOf result.0 queue.now }
{
    let (role, first, end) = assignment;
    let mut right = board.come();
    for number in first..end {
        party = match role {
            Role::PushByTurns => answer_surely(rt, queue, party, board, Call::Push(number)),
            Role::PopByTurns => answer_surely(rt, queue, party, board, Call::Pop),
            _ => {
                right = turn(rt, queue, &mut party, board, role, number) && right;
                party
            }
        };
    }
    match role {
        Role::Force => {
            board.running.fetch_sub(1, Ordering::SeqCst);
        }
        Role::Drain => drain(rt, queue, &mut party, board),
        _ => {}
    }
    (party, right)
}

/// A thread and so many others. Each has the assignment of its number, of which this one has the greatest.
pub(crate) fn crew<A: Memory + Send + Sync, R: Wait + Threads + Sync + Abort>(
    rt: &R,
    queue: &ConcurrentQueue<u64, A>,
    party: Party<u64>,
    board: &Board,
    assignments: &[Assignment],
    others: u64,
) -> (Party<u64>, bool)
    requires { IsPartyOf party queue.now }
    ensures { IsPartyOf result.0 queue.now }
{
    let Some(assignment) = assignments.get(others as usize) else {
        return (party, false);
    };
    if others == 0 {
        return act(rt, queue, party, board, *assignment);
    }
    let (a, b) = part(rt, queue, party);
    let ((a, right), (b, right_too)) = join(
        rt,
        || act(rt, queue, a, board, *assignment),
        || -> (Party<u64>, bool)
            requires { IsSync R.row × IsPartyOf b queue.now × (0 < others) }
            ensures { IsPartyOf result.0 queue.entry.now }
        { crew(rt, queue, b, board, assignments, others - 1) },
    );
    (queue.join(a, b), right && right_too)
}

/// Pops all items, which are those of up to four threads, so many of each: the numbers from 0 on, from so many on, and so on. Gives how many of each thread came in their order.
pub(crate) fn in_order<A: Allocator>(mut alone: Exclusive<u64, A>, each: u64) -> [u64; 4]
    requires { 0 < each }
{
    let mut counts = [0u64; 4];
    for _ in 0..alone.len() {
        if let Ok(item) = alone.pop()
            && let Some(count) = counts.get_mut((item / each) as usize)
            && *count == item % each
        {
            *count = count.wrapping_add(1);
        }
    }
    counts
}
