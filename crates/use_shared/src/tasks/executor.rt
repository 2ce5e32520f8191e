//! What workers share, and what each of them does.
ghost use Rattle.std.specs.Prelude.{◌≡◌, ◌<◌, ◌==◌, ℕ, length, map, IfOk, IfNone, MatchResult};
ghost use Rattle.std.specs.List.{count_by};
ghost use Rattle.use_shared.specs.Sharing.{IsWorkerOf, IsFresh, Moves, SeesNone, IsDone, AreParts, AreJoined, none, one, below, taken};
ghost use denote.Param.Send.{IsSync};

use crate::tasks::numbered::{Batch, Finished, Numbered, Running};
use crate::tasks::stepped::{Step, Task};
use concurrent_queue::{ConcurrentQueue, Exclusive, NullTestable, Party};
use std::alloc::{AllocError, Allocator};
use std::sync::Wait;
use std::thread::{Threads, join};

/// A queue of tasks that are not done, and one of those that are. Each has room for all.
#[derive(Drop)]
pub(crate) struct Executor<T, D, A: Allocator> {
    tasks: ConcurrentQueue<T, A>,
    outputs: ConcurrentQueue<D, A>,
}

/// A worker has a party of either queue.
#[derive(Drop)]
pub(crate) struct Worker<T, D> {
    tasks: Party<T>,
    outputs: Party<D>,
}

/// An executor for so many tasks, and its first worker.
///
/// # Errors
///
/// There was no memory.
pub(crate) fn open<T: Drop + Send, D: Drop + Send, A: Allocator + Clone>(
    alloc: &A,
    count: usize,
) -> Result<(Executor<T, D, A>, Worker<T, D>), AllocError>
    requires some { 0 < count }
    ensures { IfOk result (λ r. IsWorkerOf r.1 r.0 × IsFresh r.1) }
{
    let (tasks, tasks_party) = ConcurrentQueue::bounded(alloc.clone()?, count)?;
    let (outputs, outputs_party) = ConcurrentQueue::bounded(alloc.clone()?, count)?;
    let executor = Executor { tasks, outputs };
    let worker = Worker {
        tasks: tasks_party,
        outputs: outputs_party,
    };
    Ok((executor, worker))
}

impl<K: Batch<T::Output>, T: Task, A: NullTestable> Executor<Running<K, T>, Finished<K, T>, A> {
    /// Puts all tasks into the queue.
    pub(crate) fn start<R: Wait>(
        &self,
        rt: &R,
        worker: &mut Worker<Running<K, T>, Finished<K, T>>,
        tasks: Vec<T, A>,
    )
        requires of { IsWorkerOf worker.old self.now }
        requires batch { map T.outcome tasks.items ≡ K.outcomes }
        ensures { Moves (λ t. t.number) (λ d. d.number) worker.old worker.new (below (length tasks.items)) none }
    {
        let mut number = 0;
        for task in tasks {
            self.put(rt, worker, Running::new(number, task));
            number += 1;
        }
    }

    /// The outputs, where all is done.
    pub(crate) fn finish(
        self,
        worker: Worker<Running<K, T>, Finished<K, T>>,
    ) -> Exclusive<Finished<K, T>, A>
        requires of { IsWorkerOf worker self }
        requires done { IsDone (λ t. t.number) (λ d. d.number) (length K.outcomes) worker }
        ensures { (i : ℕ) → i < length K.outcomes → count_by (λ d. d.number == i) result.queue.items ≡ 1 }
    {
        worker.tasks.show_view();
        worker.outputs.show_view();
        let Executor { tasks, outputs } = self;
        let Ok(tasks) = tasks.finish(worker.tasks) else {
            unreachable!()
        };
        let Ok(outputs) = outputs.finish(worker.outputs) else {
            unreachable!()
        };
        tasks.show_sound();
        outputs.show_sound();
        outputs
    }
}

impl<W: Numbered, A: NullTestable> Executor<W, W::Finished, A> {
    /// Puts a task into the queue. Where that refuses it, which it does not, as it has room for all and is open, the task is stepped here.
    fn put<R: Wait>(&self, rt: &R, worker: &mut Worker<W, W::Finished>, task: W)
        requires of { IsWorkerOf worker.old self.now }
        ensures { Moves W.number W.finished_number worker.old worker.new (one (W.number task)) none }
    {
        let mut task = task;
        for _ in rt.forever() {
            worker.tasks.show_view();
            match self.tasks.push(rt, &mut worker.tasks, task) {
                Ok(()) => return,
                Err(why) => match why.into_inner().step() {
                    Step::More(next) => task = next,
                    Step::Done(finished) => {
                        self.hand_in(rt, worker, finished);
                        return;
                    }
                },
            }
        }
        unreachable!()
    }

    /// Hands in an output.
    fn hand_in<R: Wait>(&self, rt: &R, worker: &mut Worker<W, W::Finished>, finished: W::Finished)
        requires of { IsWorkerOf worker.old self.now }
        ensures { Moves W.number W.finished_number worker.old worker.new (one (W.finished_number finished)) none }
    {
        let mut finished = finished;
        for _ in rt.forever() {
            worker.outputs.show_view();
            match self.outputs.push(rt, &mut worker.outputs, finished) {
                Ok(()) => return,
                Err(why) => finished = why.into_inner(),
            }
        }
        unreachable!()
    }

    /// Takes the next task, if there is one.
    fn take<R: Wait>(&self, rt: &R, worker: &mut Worker<W, W::Finished>) -> Option<W>
        requires of { IsWorkerOf worker.old self.now }
        ensures moved { Moves W.number W.finished_number worker.old worker.new none (taken W.number result) }
        ensures last { IfNone result (SeesNone worker.new.tasks) }
    {
        worker.tasks.show_view();
        match self.tasks.pop(rt, &mut worker.tasks) {
            Ok(task) => Some(task),
            Err(_) => None,
        }
    }

    /// Whether there is no task in the queue.
    fn has_no_task(&self, worker: &mut Worker<W, W::Finished>) -> bool
        requires of { IsWorkerOf worker.old self.now }
        ensures { Moves W.number W.finished_number worker.old worker.new none none }
    {
        worker.tasks.show_view();
        self.tasks.is_empty(&mut worker.tasks)
    }

    /// Takes tasks, steps each once, and puts it back or hands in its output, until the queue of tasks is found empty.
    ///
    /// Then each task that is not done is with another worker, who goes on with it: there is no use for this one any more.
    pub(crate) fn work<R: Wait>(
        &self,
        rt: &R,
        worker: Worker<W, W::Finished>,
    ) -> Worker<W, W::Finished>
        requires of { IsWorkerOf worker self.now }
        ensures moved { Moves W.number W.finished_number worker result none none }
        ensures last { SeesNone result.tasks }
    {
        let mut worker = worker;
        for _ in rt.forever() {
            let Some(task) = self.take(rt, &mut worker) else {
                return worker;
            };
            match task.step() {
                Step::More(next) => self.put(rt, &mut worker, next),
                Step::Done(finished) => self.hand_in(rt, &mut worker, finished),
            }
        }
        unreachable!()
    }

    /// Makes two workers of one, or gives it back where the queues have as many parties as they may.
    fn split(
        &self,
        worker: Worker<W, W::Finished>,
    ) -> Result<(Worker<W, W::Finished>, Worker<W, W::Finished>), Worker<W, W::Finished>>
        requires of { IsWorkerOf worker self.now }
        ensures { MatchResult result (λ r. AreParts worker r.0 r.1) (λ back. Moves W.number W.finished_number worker back none none) }
    {
        worker.tasks.show_view();
        worker.outputs.show_view();
        let Worker { tasks, outputs } = worker;
        match self.outputs.split(outputs) {
            Err(outputs) => Err(Worker { tasks, outputs }),
            Ok((outputs, other_outputs)) => match self.tasks.split(tasks) {
                Ok((tasks, other_tasks)) => {
                    let other = Worker {
                        tasks: other_tasks,
                        outputs: other_outputs,
                    };
                    Ok((Worker { tasks, outputs }, other))
                }
                Err(tasks) => {
                    outputs.show_view();
                    other_outputs.show_view();
                    let outputs = self.outputs.join(outputs, other_outputs);
                    Err(Worker { tasks, outputs })
                }
            },
        }
    }

    /// Makes one worker of two.
    fn join(
        &self,
        ours: Worker<W, W::Finished>,
        theirs: Worker<W, W::Finished>,
    ) -> Worker<W, W::Finished>
        requires of { IsWorkerOf ours self.now × IsWorkerOf theirs self.now }
        ensures { AreJoined ours theirs result }
    {
        ours.tasks.show_view();
        ours.outputs.show_view();
        theirs.tasks.show_view();
        theirs.outputs.show_view();
        Worker {
            tasks: self.tasks.join(ours.tasks, theirs.tasks),
            outputs: self.outputs.join(ours.outputs, theirs.outputs),
        }
    }
}

/// Runs so many workers, each but one in a thread of its own where one can be made, and joins them. Where no task is in the queue, or no further worker can be had, there are fewer.
pub(crate) fn run_workers<W: Numbered, A: NullTestable + Send + Sync, R: Threads + Wait + Sync>(
    rt: &R,
    executor: &Executor<W, W::Finished, A>,
    worker: Worker<W, W::Finished>,
    count: u64,
) -> Worker<W, W::Finished>
    requires of { IsWorkerOf worker executor.now }
    ensures { Moves W.number W.finished_number worker result none none }
{
    if count <= 1 {
        return executor.work(rt, worker);
    }
    let mut worker = worker;
    if executor.has_no_task(&mut worker) {
        return worker;
    }
    let half = count / 2;
    let rest = count - half;
    match executor.split(worker) {
        Err(worker) => executor.work(rt, worker),
        Ok((ours, theirs)) => {
            let (theirs, ours) = join(
                rt,
                || -> Worker<W, W::Finished>
                    requires sync { IsSync R.row }
                    requires of { IsWorkerOf theirs executor.now }
                    ensures { Moves W.number W.finished_number theirs result none none }
                { run_workers(rt, executor, theirs, half) },
                || -> Worker<W, W::Finished>
                    requires sync { IsSync R.row }
                    requires of { IsWorkerOf ours executor.now }
                    ensures { Moves W.number W.finished_number ours result none none }
                { run_workers(rt, executor, ours, rest) },
            );
            executor.join(ours, theirs)
        }
    }
}
