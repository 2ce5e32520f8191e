//! The callers of shared queues and of channels that the pages show, run on threads.
use crate::asserts::{is, is_in};
use crate::opening::open_surely;
use callers::channel::{gather, hand_through};
use callers::parties::{closed_by_many, hand_over, hand_to_many, through_a_shared_slot};
use counted_channel::Disconnected;

#[test]
fn handed_over(rt: HostRuntime) {
    let handed = hand_over(&rt, rt.alloc(), 25_000);
    is(&rt, handed, Ok((312_487_500, 0)));
}

#[test]
fn handed_to_one_and_to_five(rt: HostRuntime) {
    let one = hand_to_many(&rt, rt.alloc(), 1000, 0);
    let five = hand_to_many(&rt, rt.alloc(), 1000, 4);
    is(&rt, (one, five), (Ok((499_500, 0)), Ok((499_500, 0))));
}

#[test]
fn through_one_party(rt: HostRuntime) {
    let through = through_a_shared_slot(&rt, rt.alloc(), 7, 8);
    is(&rt, through, Ok((7, 8)));
}

#[test]
fn closed_by_two_thousand(rt: HostRuntime) {
    for cap in [Some(1), Some(3), None] {
        let (queue, party) = open_surely(&rt, rt.alloc(), cap);
        is_in(&rt, cap, closed_by_many(queue, party, 2000), (true, 0));
    }
}

#[test]
fn a_value_goes_through_a_slot(rt: HostRuntime) {
    let handed = hand_through(&rt, rt.alloc(), 7).expect(&rt, "memory");
    let seen = (handed.sent, handed.came, handed.then, handed.left);
    is(&rt, seen, (Ok(()), Ok(7), Err(Disconnected), 0));
}

#[test]
fn all_that_two_threads_send_comes(rt: HostRuntime) {
    for cap in [1usize, 3, 5000] {
        let all = gather(&rt, rt.alloc(), cap, 1000).expect(&rt, "memory");
        let seen = (all.sent, all.came, all.left);
        is_in(&rt, cap, seen, ((1000, 1000), 2000, 0));
    }
}
