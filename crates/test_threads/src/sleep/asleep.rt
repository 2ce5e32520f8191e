//! Two threads that take turns, and sleep until the other gives an item: each that is seen asleep before, and as fast as they wake.
use crate::asserts::is;
use crate::host::Host;
use event_count::EventCount;
use std::sync::Wait;
use std::sync::atomic::AtomicU64;
use std::sync::atomic::Ordering::SeqCst;
use std::thread::join;
use test_support::watched::Watched;

/// What the thread waits for.
#[derive(Drop)]
struct Item {
    made: (),
}

/// Items for one thread, which sleeps where there is none.
#[derive(Drop)]
struct Post {
    arrivals: EventCount<Item>,
    items: AtomicU64,
    taker: Watched,
}

impl Post {
    fn new(items: u64) -> Post {
        Post {
            arrivals: EventCount::new(),
            items: AtomicU64::new(items),
            taker: Watched::new(),
        }
    }

    /// Gives an item. Every second time all are notified, and not one.
    fn give(&self, round: u64) {
        self.items.fetch_add(1, SeqCst);
        if round % 2 == 0 {
            self.arrivals.owe_one(Item { made: () }).notify();
        } else {
            self.arrivals.owe_all(Item { made: () }).notify();
        }
    }

    /// Takes an item if there is one.
    fn try_take(&self) -> bool {
        let some = self.items.load(SeqCst) != 0;
        if some {
            self.items.fetch_sub(1, SeqCst);
        }
        some
    }

    /// Takes an item, and sleeps until there is one.
    fn take<R: Wait>(&self, rt: &R) {
        for _ in rt.forever() {
            if self.try_take() {
                return;
            }
            let ticket = self.arrivals.prepare();
            if self.try_take() {
                ticket.found();
                return;
            }
            ticket.missed(Item { made: () }).wait(rt);
        }
    }
}

/// Takes turns with another thread, and looks before each, where it is to, until that is seen asleep. Asserts that it always is.
fn take_turns<R: Host>(rt: &R, mine: &Post, others: &Post, turns: u64, looks: bool) {
    mine.taker.enter(rt);
    for round in 0..turns {
        mine.take(rt);
        if looks {
            is(rt, others.taker.is_seen_asleep(rt), true);
        }
        others.give(round);
    }
}

/// Two threads take so many turns each, of which the first looks or none. Gives what is left for each.
fn turns_taken<R: Host + Sync>(rt: &R, turns: u64, looks: bool) -> (u64, u64) {
    let first = Post::new(1);
    let second = Post::new(0);
    join(
        rt,
        || take_turns(rt, &first, &second, turns, looks),
        || take_turns(rt, &second, &first, turns, false),
    );
    (first.items.load(SeqCst), second.items.load(SeqCst))
}

#[test]
fn each_item_wakes_a_sleeper(rt: HostRuntime) {
    is(&rt, turns_taken(&rt, 1000, true), (1, 0));
}

#[test]
fn no_turn_is_slept_through(rt: HostRuntime) {
    is(&rt, turns_taken(&rt, 50_000, false), (1, 0));
}
