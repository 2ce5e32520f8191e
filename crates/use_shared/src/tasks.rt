//! Tasks that workers share: each is stepped by one worker at a time, until it is done.
ghost use Rattle.std.specs.Prelude.{◌≡◌, map, MatchResult};

mod executor;
mod numbered;
mod placing;
mod stepped;

use concurrent_queue::NullTestable;
use executor::{open, run_workers};
use numbered::{Batch, Finished, Running};
use placing::{contents, place, room};
use std::marker::Brand;
use std::sync::Wait;
use std::thread::Threads;
pub use stepped::{Step, Task};

/// Steps the tasks until all are done, and gives their outputs in the order of the tasks. Of so many workers, though no more than there are tasks, this thread is one, and each other has a thread of its own where one can be made.
///
/// # Errors
///
/// The tasks, where there is no memory. None was stepped.
pub fn run<T: Task, A: NullTestable + Clone + Send + Sync, R: Threads + Wait + Sync>(
    rt: &R,
    alloc: &A,
    tasks: Vec<T, A>,
    workers: u64,
) -> Result<Vec<T::Output, A>, Vec<T, A>>
    ensures { MatchResult result (λ outputs. outputs.items ≡ map T.outcome tasks.items) (λ back. back ≡ tasks) }
{
    run_batch::<Brand, T, A, R>(rt, alloc, tasks, workers)
}

/// The same of tasks that are a batch.
fn run_batch<
    K: Batch<T::Output> + Sync,
    T: Task,
    A: NullTestable + Clone + Send + Sync,
    R: Threads + Wait + Sync,
>(rt: &R, alloc: &A, tasks: Vec<T, A>, workers: u64) -> Result<Vec<T::Output, A>, Vec<T, A>>
    requires { map T.outcome tasks.items ≡ K.outcomes }
    ensures { MatchResult result (λ outputs. outputs.items ≡ K.outcomes) (λ back. back ≡ tasks) }
{
    let count = tasks.len();
    let Ok((mut places, outputs)) = room::<T::Output, A>(alloc, count) else {
        return Err(tasks);
    };
    if count == 0 {
        return Ok(outputs);
    }
    let Ok((executor, mut worker)) = open::<Running<K, T>, Finished<K, T>, A>(alloc, count) else {
        return Err(tasks);
    };
    executor.start(rt, &mut worker, tasks);
    let worker = run_workers(rt, &executor, worker, workers.min(count as u64));
    let worker = executor.work(rt, worker);
    place(&mut places, executor.finish(worker));
    Ok(contents(places, outputs))
}
