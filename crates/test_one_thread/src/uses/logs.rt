//! A log is filled past its capacity, and emptied.
ghost use Rattle.std.specs.Prelude.{◌<◌};

use crate::asserts::{is, is_in};
use std::alloc::Global;
use std::process::Abort;
use test_support::allocators::{Heap, Refusal};
use use_owner::log::Log;

/// Appends 0, 1, .. up to `count`, which is left out, to a log, and takes out what it holds. Asserts that the oldest gave way, and that the newest came out.
fn give_way(rt: &impl Abort, heap: &Heap, capacity: usize, count: u64)
    requires { 1 < capacity }
{
    let mut log: Log<u64, &Heap> = Log::new(heap, capacity).expect(rt, "memory");
    let mut right = true;
    for entry in 0..count {
        let gone = entry.checked_sub(capacity as u64);
        right = log.append(entry) == Ok(gone) && right;
    }
    for entry in count.saturating_sub(capacity as u64)..count {
        right = log.take_oldest() == Some(entry) && right;
    }
    is_in(rt, capacity, (right, log.take_oldest()), (true, None));
}

#[test]
fn the_oldest_entries_give_way(rt: HostRuntime) {
    let heap = Heap::new(rt.alloc(), Refusal::Never);
    for (capacity, count) in [(3usize, 5u64), (5000, 40), (3000, 10_000)] {
        give_way(&rt, &heap, capacity, count);
    }
}

/// A log is made of the last of many entries. One that still has entries leaves nothing allocated once it is dropped.
#[test]
fn a_dropped_log_leaves_nothing(rt: HostRuntime) {
    let heap = Heap::new(rt.alloc(), Refusal::Never);
    let mut log = Log::of(&heap, 2, &[7u64, 8, 9]).expect(&rt, "memory");
    let oldest = [log.take_oldest(), log.take_oldest(), log.take_oldest()];
    log.append_all(&[10]);
    let held = heap.live();
    drop(log);
    let seen = (oldest, 0 < held, heap.live());
    is(&rt, seen, ([Some(8), Some(9), None], true, 0));
}

/// How many entries of a log are 7, 8 and so on, and how many there are.
fn read(log: &Log<u64, &Heap>) -> (u64, usize) {
    let mut next: u64 = 7;
    for entry in log.iter() {
        if *entry == next {
            next = next.wrapping_add(1);
        }
    }
    (next.wrapping_sub(7), log.len())
}

/// The entries of a log are read in their order, and stay.
#[test]
fn a_log_is_read_and_stays(rt: HostRuntime) {
    let heap = Heap::new(rt.alloc(), Refusal::Never);
    let mut log: Log<u64, &Heap> = Log::new(&heap, 3).expect(&rt, "memory");
    let empty = log.is_empty();
    let none = read(&log);
    log.append_all(&[6, 7, 8, 9]);
    let found = [none, read(&log), read(&log)];
    let seen = (empty, found, log.take_oldest(), log.is_empty());
    is(&rt, seen, (true, [(0, 0), (3, 3), (3, 3)], Some(7), false));
}
