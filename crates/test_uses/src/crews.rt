//! Each thread of a crew works once, with a party of its own, and all parties become one. Where a thread is refused the calling thread does its work, and no further one is started.
ghost use Rattle.std.specs.Prelude.{⊤, ◌≡◌};
ghost use Rattle.concurrent_queue.specs.Shared.{IsPartyOf};

use crate::asserts::{is, is_in};
use crate::opening::open_surely;
use concurrent_queue::{ConcurrentQueue, Exclusive, Party};
use queue_crew::{Gathered, Limit, NO_LIMIT, OnRefusal, Roster, Shift, run_shift};
use std::alloc::Global;
use std::process::Abort;
use std::sync::Wait;
use std::thread::Threads;

/// Each thread pushes its number.
struct Signing;

/// The number of a thread, and whether it was pushed.
type Sign = (u64, bool);

impl Shift<u64, Global> for Signing {
    type Post = Sign;

    ghost reports = { λ shift number party sign. sign.0 ≡ number };

    fn work<R: Wait>(
        &self,
        rt: &R,
        queue: &ConcurrentQueue<u64>,
        number: u64,
        party: &mut Party<u64>,
    ) -> Sign {
        (number, queue.push(rt, party, number).is_ok())
    }
}

/// What the caller pushes before the crew.
const BEFORE: u64 = 1000;

/// How many of these pushed their number.
fn pushed(posts: &[Sign]) -> usize {
    let mut count: usize = 0;
    for (_, accepted) in posts {
        count = count.wrapping_add(usize::from(*accepted));
    }
    count
}

/// Crosses a number off those that were pushed. Gives whether it was one of them, and not crossed off before.
fn cross_off(posts: &mut [Sign], number: u64) -> bool {
    match posts.get_mut(number as usize) {
        Some(sign) => {
            let before = *sign;
            *sign = (number, false);
            before == (number, true)
        }
        None => false,
    }
}

/// Whether what is left is what the caller pushed, and then the numbers that so many of these pushed.
fn are_left(queue: &mut Exclusive<u64>, posts: &mut [Sign], count: usize) -> bool {
    let mut right = queue.pop() == Ok(BEFORE) && queue.len() == count;
    for _ in 0..count {
        right = match queue.pop() {
            Ok(number) => cross_off(posts, number) && right,
            Err(_) => false,
        };
    }
    right
}

/// What came of a crew: how many threads were started, whether all were, whether the queue is closed, how many posts there are, how many of them pushed their number, and whether those numbers
/// are in the queue.
type Seen = (u64, bool, bool, usize, usize, bool);

/// Runs such a crew on a queue with one item. Asserts that there is memory, and that no party is missing then. Gives what came of it, and whether its last thread pushed its number.
fn run<R: Abort + Threads + Wait + Sync>(rt: &R, alloc: Global, roster: Roster) -> (Seen, bool) {
    let (queue, mut party) = open_surely(rt, alloc, Some(64));
    is(rt, queue.push(rt, &mut party, BEFORE).is_ok(), true);
    let Ok(crew) = run_shift(rt, alloc, &queue, party, &Signing, roster) else {
        panic!(rt; "no memory for the posts")
    };
    let Gathered {
        party,
        mut posts,
        started,
        all_started,
    } = crew;
    let Ok(mut left) = queue.finish(party) else {
        panic!(rt; "a party is missing")
    };
    let closed = left.is_closed();
    let count = pushed(&posts);
    let last = match posts.last() {
        Some((_, accepted)) => *accepted,
        None => false,
    };
    let are_left = are_left(&mut left, &mut posts, count);
    let seen = (started, all_started, closed, posts.len(), count, are_left);
    (seen, last)
}

#[test]
fn each_thread_works_once(rt: HostRuntime) {
    for threads in [0, 1, 3, 40] {
        for on_refusal in [OnRefusal::GoOn, OnRefusal::CloseQueue] {
            let roster = Roster {
                threads,
                limit: NO_LIMIT,
                on_refusal,
            };
            let (seen, _) = run(&rt, rt.alloc(), roster);
            let all = threads as usize;
            is_in(&rt, threads, seen, (threads, true, false, all, all, true));
        }
    }
}

/// One piece of work more than threads were started: the calling thread does it, or finds the queue closed. What is pushed is what the posts say.
#[test]
fn the_work_of_a_thread_that_is_refused_is_done_here(rt: HostRuntime) {
    for threads in [1, 3, 40, 1_000_000] {
        for started in 0..threads.min(40) {
            for on_refusal in [OnRefusal::GoOn, OnRefusal::CloseQueue] {
                let closes = on_refusal == OnRefusal::CloseQueue;
                let roster = Roster {
                    threads,
                    limit: Limit(started),
                    on_refusal,
                };
                let found = run(&rt, rt.alloc(), roster);
                let posts = started as usize + 1;
                let count = if closes { found.0.4 } else { posts };
                let wanted = ((started, false, closes, posts, count, true), !closes);
                is_in(&rt, (threads, started, closes), found, wanted);
            }
        }
    }
}
