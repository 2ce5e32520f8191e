//! Webs that two threads share, a seat each.
ghost use Rattle.std.specs.Prelude.{◌≡◌, true};
ghost use denote.RawPtr.{InBlock};
ghost use Rattle.mem_blocks.specs.Seats.{Sits, Same};
ghost use Rattle.test_support.specs.ClosingRule.{KeepsHand};

use crate::asserts::is;
use mem_blocks::block::BlockPtr;
use mem_blocks::web::{Rested, Seat, Web};
use std::alloc::Global;
use std::process::Abort;
use std::sync::atomic::{AtomicBool, Ordering};
use std::thread::{Threads, join_mut, yield_now};
use test_support::closing;
use test_support::closing_rule::{ClosingRule, QueueEnds, View};
use test_support::signs::wait_for;

/// How often a thread looks, at most, for what the other is to do.
const LOOKS: u64 = 10_000_000;

/// A queue that can be closed.
type Queue = Web<u8, View, QueueEnds<u8>, ClosingRule, Global>;

/// A party of it.
type Party = Seat<u8, View, Global>;

/// Looks until the queue is closed, and tells whether it came to see that.
fn sees_it_closed(queue: &Queue, party: &mut Party, tail: BlockPtr<u8>) -> bool
    requires { Sits party.old queue.now × InBlock tail.ptr × (tail.ptr ≡ queue.now.key.tail.ptr) }
    ensures seat { Same party.new party.old }
    ensures kept { KeepsHand party.old.sitter party.new.sitter }
{
    for _ in 0..LOOKS {
        if closing::is_closed(queue, party, tail) {
            return true;
        }
        yield_now();
    }
    false
}

/// Closes the queue, and tells whether it did and then saw the other thread's answer.
fn calls(queue: &Queue, party: &mut Party, tail: BlockPtr<u8>, answer: &AtomicBool) -> bool
    requires { Sits party.old queue.now × InBlock tail.ptr × (tail.ptr ≡ queue.now.key.tail.ptr) }
    ensures seat { Same party.new party.old }
    ensures kept { KeepsHand party.old.sitter party.new.sitter }
{
    if !closing::close(queue, party, tail) {
        return false;
    }
    wait_for(answer)
}

/// Waits until the other thread has closed the queue, which it cannot do again, and answers.
fn answers(queue: &Queue, party: &mut Party, tail: BlockPtr<u8>, answer: &AtomicBool) -> bool
    requires { Sits party.old queue.now × InBlock tail.ptr × (tail.ptr ≡ queue.now.key.tail.ptr) }
    ensures seat { Same party.new party.old }
    ensures kept { KeepsHand party.old.sitter party.new.sitter }
{
    let right = sees_it_closed(queue, party, tail) && !closing::close(queue, party, tail);
    answer.store(right, Ordering::SeqCst);
    right
}

/// What two threads come to, a seat each, of which one calls and the other answers.
fn call_and_answer<R: Threads>(
    rt: &R,
    queue: &Queue,
    seat: &mut Party,
    tail: BlockPtr<u8>,
) -> (bool, bool)
    requires { Sits seat.old queue.now × InBlock tail.ptr × (tail.ptr ≡ queue.now.key.tail.ptr) }
    ensures { Same seat.new seat.old }
{
    let answer = AtomicBool::new(false);
    let mut other = closing::part(queue, seat, tail);
    let seen = join_mut(
        rt,
        &mut || calls(queue, seat, tail, &answer),
        &mut || answers(queue, &mut other, tail, &answer),
    );
    closing::take_back(queue, seat, other, tail);
    seen
}

/// Wakes, waits until the other thread has closed the queue and answers, and rests again.
fn wakes_and_answers(
    queue: &Queue,
    party: &mut Rested<View>,
    tail: BlockPtr<u8>,
    answer: &AtomicBool,
) -> bool
    requires { (party.old.asleep ≡ true) × (party.old.web ≡ queue.now.id) × InBlock tail.ptr × (tail.ptr ≡ queue.now.key.tail.ptr) }
    ensures { (party.new.asleep ≡ true) × (party.new.web ≡ party.old.web) }
{
    let mut seat = party.take(queue);
    let right = answers(queue, &mut seat, tail, answer);
    *party = seat.rests();
    right
}

/// The same, where the other seat has come to rest before its thread begins, and after it ends.
fn call_and_wake<R: Threads>(
    rt: &R,
    queue: &Queue,
    seat: &mut Party,
    tail: BlockPtr<u8>,
) -> (bool, bool)
    requires { Sits seat.old queue.now × InBlock tail.ptr × (tail.ptr ≡ queue.now.key.tail.ptr) }
    ensures { Same seat.new seat.old }
{
    let answer = AtomicBool::new(false);
    let mut other = closing::part(queue, seat, tail).rests();
    let seen = join_mut(
        rt,
        &mut || calls(queue, seat, tail, &answer),
        &mut || wakes_and_answers(queue, &mut other, tail, &answer),
    );
    closing::take_back(queue, seat, other.wakes(queue), tail);
    seen
}

/// What two threads come to on a queue of their own, which is ended then.
fn seen<R: Threads + Abort>(rt: &R, alloc: Global, rests: bool) -> (bool, bool) {
    let Ok((queue, mut seat, hub, tail, head)) = closing::open::<u8, Global>(&alloc) else {
        panic!(rt; "no memory");
    };
    let seen = if rests {
        call_and_wake(rt, &queue, &mut seat, tail)
    } else {
        call_and_answer(rt, &queue, &mut seat, tail)
    };
    closing::end(queue, seat, hub, &alloc, tail, head);
    seen
}

/// Each thread waits for what the other one does, so neither of them alone comes to a good end.
#[test]
fn two_threads_see_each_other(rt: HostRuntime) {
    is(&rt, seen(&rt, rt.alloc(), false), (true, true));
}

/// A seat comes to rest, wakes and rests again in the other thread, and wakes here.
#[test]
fn a_seat_rests_and_wakes_in_another_thread(rt: HostRuntime) {
    is(&rt, seen(&rt, rt.alloc(), true), (true, true));
}
