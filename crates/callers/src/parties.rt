//! Callers of `concurrent_queue`; its `CALLING.md` shows the first.
ghost use Rattle.std.specs.Prelude.{◌≡◌, ◌<◌, true, Some, IfOk};
ghost use Rattle.queue_steps.specs.Shares.{SamePart, entire};
ghost use Rattle.concurrent_queue.specs.Shared.{IsPartyOf};
ghost use denote.Param.Send.{IsSync};

use concurrent_queue::{ConcurrentQueue, NullTestable, Party, PopError, PushError};
use std::alloc::{AllocError, Allocator, Global};
use std::sync::Wait;
use std::thread::{Threads, join, yield_now};

/// Pushes the numbers below `count`, and closes the queue.
fn send_all<A: NullTestable, R: Wait>(
    rt: &R,
    queue: &ConcurrentQueue<u64, A>,
    mut party: Party<u64>,
    count: u64,
) -> Party<u64>
    requires { IsPartyOf party queue.now }
    ensures { IsPartyOf result queue.now × (result.view.share ≡ party.view.share) }
{
    let mut next = 0;
    for _ in rt.forever() {
        if next >= count {
            break;
        }
        match queue.push(rt, &mut party, next) {
            Ok(()) => next += 1,
            Err(PushError::Full(_)) => yield_now(),
            Err(_) => break,
        }
    }
    queue.close(&mut party);
    party
}

/// Pops until the queue is closed and empty, and adds up what came.
fn receive_all<A: Allocator, R: Wait>(
    rt: &R,
    queue: &ConcurrentQueue<u64, A>,
    mut party: Party<u64>,
) -> (Party<u64>, u64)
    requires { IsPartyOf party queue.now }
    ensures { IsPartyOf result.0 queue.now × (result.0.view.share ≡ party.view.share) }
{
    let mut sum: u64 = 0;
    for _ in rt.forever() {
        match queue.pop(rt, &mut party) {
            Ok(value) => sum = sum.wrapping_add(value),
            Err(PopError::Empty) => yield_now(),
            Err(PopError::Closed) => break,
        }
    }
    (party, sum)
}

/// Sends numbers to another thread. Gives their sum, and how many are left.
pub fn hand_over<R: Threads + Wait + Sync>(
    rt: &R,
    alloc: Global,
    count: u64,
) -> Result<(u64, usize), AllocError> {
    let (queue, party) = ConcurrentQueue::bounded(alloc, 1)?;
    let Ok((first, second)) = queue.split(party) else {
        unreachable!()
    };
    let (first, (second, sum)) = join(
        rt,
        || send_all(rt, &queue, first, count),
        || receive_all(rt, &queue, second),
    );
    let party = queue.join(first, second);
    match queue.finish(party) {
        Ok(left) => Ok((sum, left.len())),
        Err(_) => unreachable!(),
    }
}

/// Pops in this thread and in so many others, each with a party of its own, until the queue is closed and empty. Gives the party that they become again, and the sum of what came.
#[tactic(auto, using(crate::proofs::Halves::whole_again))]
fn receive_by_many<R: Threads + Wait + Sync>(
    rt: &R,
    queue: &ConcurrentQueue<u64>,
    party: Party<u64>,
    others: u64,
) -> (Party<u64>, u64)
    requires { IsPartyOf party queue.now }
    ensures { IsPartyOf result.0 queue.now × SamePart result.0.view.share party.view.share }
{
    if others == 0 {
        return receive_all(rt, queue, party);
    }
    match queue.split(party) {
        Err(party) => receive_all(rt, queue, party),
        Ok((first, second)) => {
            let ((first, sum), (second, more)) = join(
                rt,
                || receive_all(rt, queue, first),
                || -> (Party<u64>, u64)
                    requires { IsSync R.row × IsPartyOf second queue.now × (0 < others) }
                    ensures { IsPartyOf result.0 queue.entry.now × SamePart result.0.view.share second.view.share }
                { receive_by_many(rt, queue, second, others - 1) },
            );
            (queue.join(first, second), sum.wrapping_add(more))
        }
    }
}

/// Sends numbers to so many threads. Gives their sum, and how many are left.
#[tactic(auto, using(crate::proofs::Halves::all_again))]
pub fn hand_to_many<R: Threads + Wait + Sync>(
    rt: &R,
    alloc: Global,
    count: u64,
    others: u64,
) -> Result<(u64, usize), AllocError> {
    let (queue, party) = ConcurrentQueue::bounded(alloc, 4)?;
    let Ok((first, second)) = queue.split(party) else {
        unreachable!()
    };
    let (first, (second, sum)) = join(
        rt,
        || send_all(rt, &queue, first, count),
        || -> (Party<u64>, u64)
            requires { IsSync R.row × IsPartyOf second queue }
            ensures { IsPartyOf result.0 queue × SamePart result.0.view.share second.view.share }
        { receive_by_many(rt, &queue, second, others) },
    );
    let party = queue.join(first, second);
    match queue.finish(party) {
        Ok(left) => Ok((sum, left.len())),
        Err(_) => unreachable!(),
    }
}

/// Puts `value` through a queue that only one party uses, and `other` into it while it is full. Gives what came out and what was handed back.
pub fn through_a_shared_slot<R: Wait>(
    rt: &R,
    alloc: Global,
    value: u64,
    other: u64,
) -> Result<(u64, u64), AllocError>
    ensures { IfOk result (λ out. out ≡ (value, other)) }
{
    let (queue, mut party) = ConcurrentQueue::bounded(alloc, 1)?;
    let Ok(()) = queue.push(rt, &mut party, value) else {
        unreachable!()
    };
    let Err(PushError::Full(back)) = queue.push(rt, &mut party, other) else {
        unreachable!()
    };
    let Ok(out) = queue.pop(rt, &mut party) else {
        unreachable!()
    };
    let true = queue.close(&mut party) else {
        unreachable!()
    };
    let Err(PopError::Closed) = queue.pop(rt, &mut party) else {
        unreachable!()
    };
    match queue.finish(party) {
        Ok(_left) => Ok((out, back)),
        Err(_) => unreachable!(),
    }
}

/// Puts two values into a queue that only one party uses, takes one off by an iterator, which is then dropped, and gives it and what the party takes after it.
pub fn one_of_two_shared<R: Wait>(
    rt: &R,
    alloc: Global,
    one: u64,
    two: u64,
) -> Result<(Option<u64>, Option<u64>), AllocError>
    ensures { IfOk result (λ out. out ≡ (Some one, Some two)) }
{
    let (queue, mut party) = ConcurrentQueue::bounded(alloc, 2)?;
    let Ok(()) = queue.push(rt, &mut party, one) else {
        unreachable!()
    };
    let Ok(()) = queue.push(rt, &mut party, two) else {
        unreachable!()
    };
    let mut items = queue.try_iter(rt, &mut party);
    let first = items.next();
    drop(items);
    Ok((first, queue.pop(rt, &mut party).ok()))
}

/// Whether each of two parties finds the queue closed, of which the second asks once it has met the first. It is told of what the first has seen.
pub fn told_of_a_closing(
    queue: &ConcurrentQueue<u64>,
    first: &mut Party<u64>,
    second: &mut Party<u64>,
) -> (bool, bool)
    requires { IsPartyOf first.old queue.now × IsPartyOf second.old queue.now }
    ensures { result.0 ≡ true → result.1 ≡ true }
{
    let found = queue.is_closed(first);
    queue.meet(first, second);
    let told = queue.is_closed(second);
    (found, told)
}

/// Parts off a party, so many times over. All of them close the queue, and become one party again. Gives it, and how many parties were refused.
fn close_by_many(
    queue: &ConcurrentQueue<u64>,
    mut party: Party<u64>,
    count: u64,
) -> (Party<u64>, u64)
    requires { IsPartyOf party queue.now }
    ensures { IsPartyOf result.0 queue.now × SamePart result.0.view.share party.view.share }
{
    queue.close(&mut party);
    if count == 0 {
        return (party, 0);
    }
    match queue.split(party) {
        Err(party) => (party, count),
        Ok((first, second)) => {
            let (second, refused) = close_by_many(queue, second, count - 1);
            (queue.join(first, second), refused)
        }
    }
}

/// Lets many parties, which become one again, close a queue that has one party, and ends the sharing. Gives whether the queue is closed, and how many parties were refused.
pub fn closed_by_many(queue: ConcurrentQueue<u64>, party: Party<u64>, count: u64) -> (bool, u64)
    requires { IsPartyOf party queue × (party.view.share ≡ entire) }
{
    let (party, refused) = close_by_many(&queue, party, count);
    match queue.finish(party) {
        Ok(left) => (left.is_closed(), refused),
        Err(_) => unreachable!(),
    }
}
