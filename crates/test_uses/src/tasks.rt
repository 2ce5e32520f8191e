//! Tasks that workers share come to what each comes to alone, in as many steps, and workers that find none end.
use crate::asserts::{is, is_in};
use crate::system::{threads, time};
use std::alloc::Global;
use std::process::Abort;
use std::sync::Wait;
use std::sync::atomic::{AtomicBool, AtomicU64, Ordering};
use std::thread::{Threads, sleep};
use std::time::Duration;
use test_support::allocators::{Heap, Refusal};
use test_support::signs::wait_for;
use use_shared::tasks::{Step, Task, run};

/// What each task does, and what all count together.
#[derive(Drop)]
enum Does {
    /// It has one to so many steps, each of which is counted.
    Counts(u64),
    /// It is done once so many have come. Each that has come is counted.
    Meets(u64),
    /// Its one step ends once the steps of so many are in progress, or after a while. Those that met are counted.
    Blocks(u64),
    /// The first has so many steps, and each other one. All are counted.
    Lasts(u64),
    /// The first sleeps for 10 milliseconds in each of so many steps, and each other has one step. All are counted.
    Sleeps(u64),
    /// It sleeps for 10 milliseconds in each of five steps. Those are counted that see more threads than so many.
    Watches(u64),
}

/// What the tasks of a test share.
#[derive(Drop)]
struct Board<'h> {
    host: &'h HostRuntime,
    does: Does,
    counted: AtomicU64,
    came: AtomicU64,
    all_are_here: AtomicBool,
}

impl<'h> Board<'h> {
    /// Of tasks that have done nothing.
    fn new(host: &'h HostRuntime, does: Does) -> Board<'h> {
        Board {
            host,
            does,
            counted: AtomicU64::new(0),
            came: AtomicU64::new(0),
            all_are_here: AtomicBool::new(false),
        }
    }

    /// How many were counted.
    fn count(&self) -> u64 {
        self.counted.load(Ordering::SeqCst)
    }

    /// Counts one more.
    fn add(&self) {
        self.counted.fetch_add(1, Ordering::SeqCst);
    }

    /// Sleeps for 10 milliseconds.
    fn pause(&self) {
        sleep(self.host, Duration::from_millis(10));
    }

    /// Waits until the steps of so many are in progress, though not for ever.
    fn block(&self, all: u64) {
        let before = self.came.fetch_add(1, Ordering::SeqCst);
        if before.wrapping_add(1) == all {
            self.all_are_here.store(true, Ordering::SeqCst);
        }
        if wait_for(&self.all_are_here) {
            self.add();
        }
    }

    /// A step of the task of this number, after so many of it. Gives whether the task is done.
    fn step(&self, number: u64, before: u64) -> bool {
        match self.does {
            Does::Counts(most) => {
                self.add();
                before == steps_but_one(number, most)
            }
            Does::Meets(all) => {
                if before == 0 {
                    self.add();
                }
                self.count() >= all
            }
            Does::Blocks(all) => {
                self.block(all);
                true
            }
            Does::Lasts(steps) => {
                self.add();
                number > 0 || before.wrapping_add(1) == steps
            }
            Does::Sleeps(steps) => {
                self.add();
                if number > 0 {
                    return true;
                }
                self.pause();
                before.wrapping_add(1) == steps
            }
            Does::Watches(most) => {
                if threads(self.host) > most {
                    self.add();
                }
                self.pause();
                before == 4
            }
        }
    }
}

/// How many steps a task has besides its last, where it is one that counts them.
fn steps_but_one(number: u64, most: u64) -> u64 {
    number.wrapping_mul(7) % most.max(1)
}

/// A task. Its output is its number.
#[derive(Drop)]
struct Numbered<'a> {
    board: &'a Board<'a>,
    number: u64,
    /// How many steps it has taken.
    taken: u64,
}

impl<'a> Task for Numbered<'a> {
    type Output = u64;

    ghost outcome = { λ t. t.number };

    fn step(self) -> Step<Numbered<'a>, u64> {
        if self.board.step(self.number, self.taken) {
            return Step::Done(self.number);
        }
        Step::More(Numbered {
            board: self.board,
            number: self.number,
            taken: self.taken.wrapping_add(1),
        })
    }
}

/// So many tasks, in memory of this heap.
fn many<'a, 'b>(
    rt: &impl Abort,
    heap: &'a Heap,
    board: &'b Board<'b>,
    count: u64,
) -> Vec<Numbered<'b>, &'a Heap> {
    let mut tasks = Vec::with_capacity(heap, count as usize).expect(rt, "memory");
    for number in 0..count {
        let task = Numbered {
            board,
            number,
            taken: 0,
        };
        tasks.push(task).expect(rt, "memory");
    }
    tasks
}

/// Whether these are 0, 1, .. up to `count`, which is left out.
fn are_all(values: &[u64], count: u64) -> bool {
    for (i, value) in values.iter().enumerate() {
        if *value != i as u64 {
            return false;
        }
    }
    values.len() as u64 == count
}

/// Runs so many tasks. Gives whether each output is its task's own, or else whether all tasks come back.
fn ran<R: Threads + Wait + Abort + Sync>(
    rt: &R,
    heap: &Heap,
    board: &Board<'_>,
    count: u64,
    workers: u64,
) -> Result<bool, bool> {
    let tasks = many(rt, heap, board, count);
    match run(rt, &heap, tasks, workers) {
        Ok(outputs) => Ok(are_all(&outputs, count)),
        Err(back) => Err(back.len() as u64 == count),
    }
}

/// What comes of tasks that do this: whether each output is its task's own, how many they counted, and how many blocks stay.
fn worked<R: Threads + Wait + Abort + Sync>(
    rt: &R,
    host: &HostRuntime,
    alloc: Global,
    does: Does,
    count: u64,
    workers: u64,
) -> (Result<bool, bool>, u64, u64) {
    let heap = Heap::new(alloc, Refusal::Never);
    let board = Board::new(host, does);
    let right = ran(rt, &heap, &board, count, workers);
    (right, board.count(), heap.live())
}

/// How many steps so many tasks have together that count them.
fn all_steps(count: u64, most: u64) -> u64 {
    let mut sum: u64 = 0;
    for number in 0..count {
        sum = sum
            .wrapping_add(steps_but_one(number, most))
            .wrapping_add(1);
    }
    sum
}

#[test]
fn each_output_is_its_tasks_own(rt: HostRuntime) {
    for (count, most, workers) in [
        (0, 1, 4),
        (1, 1, 0),
        (1, 5000, 4),
        (2, 2000, 4),
        (1000, 9, 1),
        (3000, 5, 4),
        (7, 5000, 3),
        (100, 60, 40),
        (3, 2000, 100),
        (100, 60, 0),
        (100, 60, 20_000),
        (100, 60, 100_000),
        (100, 60, 3_000_000),
        (3000, 5, 3_000_000),
    ] {
        let found = worked(&rt, &rt, rt.alloc(), Does::Counts(most), count, workers);
        let wanted = (Ok(true), all_steps(count, most), 0);
        is_in(&rt, (count, most, workers), found, wanted);
    }
}

/// Each is done only once every other one has been stepped, so all are in progress at a time, also where one worker steps them.
#[test]
fn tasks_that_wait_for_each_other_are_done(rt: HostRuntime) {
    for (all, workers) in [(3, 1), (100, 1), (100, 4), (3, 8)] {
        let found = worked(&rt, &rt, rt.alloc(), Does::Meets(all), all, workers);
        is_in(&rt, (all, workers), found, (Ok(true), all, 0));
    }
}

#[test]
fn each_worker_steps_a_task_at_the_same_time(rt: HostRuntime) {
    for all in [2, 4] {
        let found = worked(&rt, &rt, rt.alloc(), Does::Blocks(all), all, all);
        is_in(&rt, all, found, (Ok(true), all, 0));
    }
}

/// Of 64 workers there are only as many as tasks.
#[test]
fn no_thread_is_started_without_a_task(rt: HostRuntime) {
    let before = threads(&rt);
    for count in [1, 2, 4] {
        let most = before.wrapping_add(count).wrapping_sub(1);
        let found = worked(&rt, &rt, rt.alloc(), Does::Watches(most), count, 64);
        is_in(&rt, count, found, (Ok(true), 0, 0));
    }
}

/// One task has very many steps, and each other has one: soon one worker steps that task, and puts it back as often.
#[test]
fn a_long_task_is_done_beside_short_ones(rt: HostRuntime) {
    for (steps, count, workers) in [
        (2_000u64, 1, 8),
        (50_000, 8, 8),
        (2_000, 100, 4),
        (2_000, 100, 20_000),
    ] {
        let found = worked(&rt, &rt, rt.alloc(), Does::Lasts(steps), count, workers);
        let all = steps.wrapping_add(count).wrapping_sub(1);
        is_in(&rt, (steps, count, workers), found, (Ok(true), all, 0));
    }
}

/// Of eight workers seven have no task for a second. They take next to no time.
#[test]
fn workers_without_a_task_take_no_time(rt: HostRuntime) {
    let before = time(&rt).expect(&rt, "a time");
    let found = worked(&rt, &rt, rt.alloc(), Does::Sleeps(100), 8, 8);
    let after = time(&rt).expect(&rt, "a time");
    let took = after.wrapping_sub(before);
    is_in(&rt, took, (found, took <= 10), ((Ok(true), 107, 0), true));
}

/// What comes of 20 tasks where this request is refused, which is not the first, in which the tasks lie: whether all are right or come back, whether one was stepped, and whether it was refused and all memory was given back.
fn refused<R: Threads + Wait + Abort + Sync>(
    rt: &R,
    host: &HostRuntime,
    alloc: Global,
    number: u64,
) -> (Result<bool, bool>, bool, (bool, u64)) {
    let heap = Heap::new(alloc, Refusal::Nth(number));
    let board = Board::new(host, Does::Counts(5));
    let right = ran(rt, &heap, &board, 20, 3);
    let was_refused = heap.requests() >= number;
    (right, board.count() > 0, (was_refused, heap.live()))
}

/// Each request that is made is refused in turn: then the tasks come back, and in the end nothing of them is left.
#[test]
fn a_refused_request_gives_the_tasks_back(rt: HostRuntime) {
    let mut given_back: u64 = 0;
    for number in 2..20u64 {
        let found = refused(&rt, &rt, rt.alloc(), number);
        let wanted = if found.0.is_ok() {
            (Ok(true), true, (false, 0))
        } else {
            given_back = given_back.wrapping_add(1);
            (Err(true), false, (true, 0))
        };
        is_in(&rt, number, found, wanted);
    }
    is(&rt, (given_back > 3, given_back < 18), (true, true));
}
