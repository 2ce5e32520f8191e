//! One run of a load, and how long it took.
ghost use Rattle.std.specs.Prelude.{◌<◌};
ghost use Rattle.std.specs.Option.{IfSome};

use crate::crew::{Crew, Seat, run_crew};
use crate::fault::Fault;
use crate::kit::KitAlone;
use crate::load::{Load, Pairs, Pattern, Setup, Size, Workload};
use crate::ours::{Alone, OfParty, Owned, open_shared};
use crate::pairs::{Batched, Lane, Runs};
use crossbeam_queue::{ArrayQueue, SegQueue};
use std::sync::Wait;
use std::thread::Threads;
use std::time::{Duration, Instant};

/// What came of a run: the sum of the numbers that were popped, and how long it took.
#[derive(Clone, Copy)]
pub struct Run {
    pub sum: u64,
    pub took: Duration,
}

/// Runs a load, and times it.
pub fn time<R: Threads + Wait + Sync>(
    rt: &HostRuntime,
    threads: &R,
    load: Load,
) -> Result<Run, Fault>
    requires { IfSome load.capacity (λ cap. 0 < cap) }
{
    let Load { capacity, workload } = load;
    match workload {
        Workload::Threads(crew) => time_threads(rt, threads, capacity, crew),
        Workload::KitThreads(crew) => time_kit_threads(rt, threads, capacity, crew),
        Workload::Pairs(pairs) => time_sized(rt, threads, capacity, pairs),
    }
}

// Times threads on one of this repository's queues.
fn time_threads<R: Threads + Wait + Sync>(
    rt: &HostRuntime,
    threads: &R,
    capacity: Option<usize>,
    crew: Crew,
) -> Result<Run, Fault>
    requires { IfSome capacity (λ cap. 0 < cap) }
{
    let (queue, party) = open_shared(rt.alloc(), capacity)?;
    let seat = OfParty {
        queue: &queue,
        party,
    };
    time_crew(rt, threads, seat, crew)
}

// Times threads on one of the kit's queues.
fn time_kit_threads<R: Threads + Wait + Sync>(
    rt: &HostRuntime,
    threads: &R,
    capacity: Option<usize>,
    crew: Crew,
) -> Result<Run, Fault>
    requires { IfSome capacity (λ cap. 0 < cap) }
{
    match capacity {
        Some(cap) => {
            let queue: ArrayQueue<u64> = ArrayQueue::new(rt.alloc(), cap)?;
            time_crew(rt, threads, &queue, crew)
        }
        None => {
            let queue: SegQueue<u64> = SegQueue::new(rt.alloc())?;
            time_crew(rt, threads, &queue, crew)
        }
    }
}

// Times threads on an empty queue.
fn time_crew<R: Threads + Wait + Sync, S: Seat + Send + Drop>(
    rt: &HostRuntime,
    threads: &R,
    seat: S,
    crew: Crew,
) -> Result<Run, Fault> {
    let start = Instant::now(rt)?;
    let sum = run_crew(threads, rt.alloc(), seat, crew)?;
    let took = start.elapsed(rt)?;
    Ok(Run { sum, took })
}

// Times pairs by one thread, of items of the size that is asked for.
fn time_sized<R: Wait>(
    rt: &HostRuntime,
    waits: &R,
    capacity: Option<usize>,
    pairs: Pairs,
) -> Result<Run, Fault>
    requires { IfSome capacity (λ cap. 0 < cap) }
{
    match (pairs.pattern, pairs.size) {
        (Pattern::Behind(_), Size::Bytes8) => time_pairs::<[u64; 1], R>(rt, waits, capacity, pairs),
        (Pattern::Behind(_), Size::Bytes64) => time_pairs::<[u64; 8], R>(
            rt, waits, capacity, pairs,
        ),
        (Pattern::Batch(_), Size::Bytes8) => {
            time_pairs::<Batched<[u64; 1]>, R>(rt, waits, capacity, pairs)
        }
        (Pattern::Batch(_), Size::Bytes64) => {
            time_pairs::<Batched<[u64; 8]>, R>(rt, waits, capacity, pairs)
        }
    }
}

// Times pairs by one thread, on a queue of the form that is asked for.
fn time_pairs<T: Runs, R: Wait>(
    rt: &HostRuntime,
    waits: &R,
    capacity: Option<usize>,
    pairs: Pairs,
) -> Result<Run, Fault>
    requires { IfSome capacity (λ cap. 0 < cap) }
{
    match pairs.setup {
        Setup::Owned => {
            let owned: Owned<T> = Owned::open(rt.alloc(), capacity)?;
            time_lane(rt, owned, pairs)
        }
        Setup::Alone => {
            let alone: Alone<R, T> = Alone::open(rt.alloc(), waits, capacity)?;
            time_lane(rt, alone, pairs)
        }
        Setup::Ended => {
            let alone: Alone<R, T> = Alone::open(rt.alloc(), waits, capacity)?;
            time_lane(rt, alone.end(), pairs)
        }
        Setup::KitAlone => time_kit_pairs::<T, R>(rt, waits, capacity, pairs),
    }
}

// Times pairs by one thread on one of the kit's queues.
fn time_kit_pairs<T: Runs, R: Wait>(
    rt: &HostRuntime,
    waits: &R,
    capacity: Option<usize>,
    pairs: Pairs,
) -> Result<Run, Fault>
    requires { IfSome capacity (λ cap. 0 < cap) }
{
    match capacity {
        Some(cap) => {
            let queue: ArrayQueue<T> = ArrayQueue::new(rt.alloc(), cap)?;
            time_lane(rt, KitAlone { rt: waits, queue }, pairs)
        }
        None => {
            let queue: SegQueue<T> = SegQueue::new(rt.alloc())?;
            time_lane(rt, KitAlone { rt: waits, queue }, pairs)
        }
    }
}

// Times pairs on an empty queue.
fn time_lane<T: Runs, L: Lane<T> + Drop>(
    rt: &HostRuntime,
    mut lane: L,
    pairs: Pairs,
) -> Result<Run, Fault> {
    time_loop(rt, &mut lane, pairs)
}

fn time_loop<T: Runs, L: Lane<T>>(
    rt: &HostRuntime,
    lane: &mut L,
    pairs: Pairs,
) -> Result<Run, Fault> {
    let (Pattern::Behind(items) | Pattern::Batch(items)) = pairs.pattern;
    T::lay(lane, items);
    let start = Instant::now(rt)?;
    let taken = T::run(lane, items, pairs.count);
    let took = start.elapsed(rt)?;
    // the last item counts twice, so that the whole of each is wanted
    Ok(Run {
        sum: taken.sum.wrapping_add(taken.last.number()),
        took,
    })
}
