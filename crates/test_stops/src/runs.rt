//! Runs of the machine in memory that is counted, each of which is read.
use crate::events::Item;
use crate::flaw::Flaw;
use crate::reader::read;
use crate::shapes::Shape;
use machine_replay::blocks::BlockPlace;
use machine_replay::replay;
use machine_replay::types::{Event, Replay};
use queue_steps::sizes::BLOCK_SLOTS;
use std::alloc::{Global, Layout};
use test_support::allocators::{Refusal, Refusing};

/// How many parties a run has.
pub const PARTIES: usize = 3;

/// For how many events each list of them has room at least.
const ROOM: usize = BLOCK_SLOTS as usize + 1;

/// When a party did what it did, by the numbers of events.
#[derive(Clone, Copy)]
pub struct Times {
    /// Its first effect.
    pub acted: Option<usize>,
    /// Its first reply.
    pub ended: Option<usize>,
}

/// Where the calls of a run stand in the end.
#[derive(Clone, Copy)]
pub enum AtEnd {
    /// Each has ended.
    Ended,
    /// Some may have stopped for good.
    Stopped,
}

/// Runs these events, reads what is told of them, and gives when the parties 0 and 1 did what they did from the event of this number on.
///
/// # Errors
///
/// What is wrong with what is told, a call that did not end where each has to, or what is wrong with the memory of the run: the blocks that live are not those of its peak, or something is not given back.
pub fn run(
    alloc: Global,
    shape: Shape,
    events: &[Event<Item>],
    from: usize,
    at_end: AtEnd,
) -> Result<[Times; 2], Flaw> {
    let Ok(places) = Layout::array::<BlockPlace<Item>>(BLOCK_SLOTS as usize) else {
        return Err(Flaw::NoMemory);
    };
    let heap = Refusing::watching(alloc, Refusal::Never, places);
    let times = run_in(alloc, &heap, shape, events, from, at_end)?;
    if heap.live() == 0 {
        Ok(times)
    } else {
        Err(Flaw::Memory)
    }
}

// What is counted apart are the blocks alone. Of the lists that grow with a run only those of events, of replies and of what is left are aligned as a block is. An event is as large as a place, so the first has room for more events than a block has slots. No number of replies is as large as a block, and no number of items.
fn run_in(
    alloc: Global,
    heap: &Refusing<Global>,
    shape: Shape,
    events: &[Event<Item>],
    from: usize,
    at_end: AtEnd,
) -> Result<[Times; 2], Flaw> {
    let mut list = Vec::with_capacity(heap, events.len().max(ROOM))?;
    list.extend_from_slice(events)?;
    let told = replay(heap, shape.kind(), PARTIES, list)?;
    let in_progress = read(alloc, shape.capacity(), PARTIES, events, &told)?;
    if in_progress != 0 && matches!(at_end, AtEnd::Ended) {
        return Err(Flaw::Waits);
    }
    if heap.most_watched() != told.peak.blocks as u64 {
        return Err(Flaw::Blocks);
    }
    Ok([times_of(&told, 0, from), times_of(&told, 1, from)])
}

fn times_of(told: &Replay<Item, &Refusing<Global>>, party: usize, from: usize) -> Times {
    Times {
        acted: first_of(told.effects.as_slice(), party, from),
        ended: first_of(told.replies.as_slice(), party, from),
    }
}

// The number of the first event, from this number on, of which something is told of this party.
fn first_of<E: Copy>(entries: &[(usize, usize, E)], party: usize, from: usize) -> Option<usize> {
    for (number, whose, _) in entries {
        if *whose == party && *number >= from {
            return Some(*number);
        }
    }
    None
}
