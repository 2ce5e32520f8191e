//! Jobs that workers share: each is handed to one of them, or is left.
ghost use Rattle.std.specs.Prelude.{◌≡◌, true, [], IfOk};
ghost use Rattle.std.specs.List.{All};
ghost use Rattle.concurrent_queue.specs.Shared.{IsPartyOf};
ghost use Rattle.law_parties.specs.Doings.{Acts};
ghost use Rattle.use_shared.specs.Work.{all_handed, appended, Hauled, EachOnce, NoneLeft};

use concurrent_queue::{ConcurrentQueue, Exclusive, Party, PopError};
use queue_crew::{Gathered, NO_LIMIT, OnRefusal, Roster, Shift, run_shift};
use std::alloc::{AllocError, Global};
use std::sync::Wait;
use std::thread::{Threads, yield_now};

/// The jobs that no worker has yet. A job is a number.
type Jobs = ConcurrentQueue<u64>;

/// The jobs that were handed to workers, each worker's in their order, and those that are left.
#[derive(Drop)]
pub struct Report {
    pub handed: Vec<u64>,
    pub left: Exclusive<u64>,
}

/// The jobs that were handed to one worker.
#[derive(Drop)]
struct Haul {
    handed: Vec<u64>,
    /// Whether the worker went on until no job was left. If not, there was no memory to note a job.
    finished: bool,
}

/// What each worker does: it takes jobs until the queue is closed and has none.
#[derive(Clone, Copy)]
struct Taking {
    alloc: Global,
}

impl Shift<u64, Global> for Taking {
    type Post = Haul;

    ghost reports = { λ shift. Hauled };

    fn work<R: Wait>(&self, rt: &R, queue: &Jobs, _number: u64, party: &mut Party<u64>) -> Haul {
        take_all(rt, self.alloc, queue, party)
    }
}

/// Hands the jobs 0, 1, .. up to `jobs`, which is left out, to so many workers, or to as many as can be started, and waits for them. Each is a thread of its own; where one cannot be started, the calling thread works in its place.
///
/// # Errors
///
/// There was no memory.
pub fn distribute<R: Threads + Wait + Sync>(
    rt: &R,
    alloc: Global,
    jobs: u64,
    workers: u64,
) -> Result<Report, AllocError>
    ensures once { IfOk result (λ report. EachOnce jobs report) }
    ensures none_left { IfOk result (λ report. NoneLeft workers report) }
{
    let (queue, mut party) = ConcurrentQueue::unbounded(alloc)?;
    push_all(rt, &queue, &mut party, jobs)?;
    party.show_view();
    queue.close(&mut party);
    let roster = Roster {
        threads: workers,
        limit: NO_LIMIT,
        on_refusal: OnRefusal::GoOn,
    };
    let Ok(crew) = run_shift(rt, alloc, &queue, party, &Taking { alloc }, roster) else {
        return Err(AllocError);
    };
    let Gathered { party, posts, .. } = crew;
    let handed = gather(alloc, posts)?;
    party.show_view();
    match queue.finish(party) {
        Ok(left) => {
            left.show_sound();
            Ok(Report { handed, left })
        }
        Err(_) => unreachable!(),
    }
}

/// Pushes the jobs.
///
/// # Errors
///
/// There was no memory.
fn push_all<R: Wait>(
    rt: &R,
    queue: &Jobs,
    party: &mut Party<u64>,
    jobs: u64,
) -> Result<(), AllocError>
    requires { IsPartyOf party.old queue.now }
    ensures { IfOk result (λ _. Acts party.old party.new (appended jobs)) }
{
    for job in 0..jobs {
        party.show_view();
        let Ok(()) = queue.push(rt, party, job) else {
            return Err(AllocError);
        };
    }
    Ok(())
}

/// Takes jobs until the queue is closed and has none, or there is no memory to note one.
fn take_all<R: Wait>(rt: &R, alloc: Global, queue: &Jobs, party: &mut Party<u64>) -> Haul
    requires of { IsPartyOf party.old queue.now }
    requires fresh { party.old.view.mine ≡ [] }
    ensures of { IsPartyOf party.new queue.now }
    ensures share { party.new.view.share ≡ party.old.view.share }
    ensures took { Hauled 0 party.new result }
{
    let mut handed = Vec::new(alloc);
    for _ in rt.forever() {
        party.show_view();
        match queue.pop(rt, party) {
            Ok(job) => {
                let Ok(()) = handed.push(job) else {
                    return Haul {
                        handed,
                        finished: false,
                    };
                };
            }
            Err(PopError::Empty) => yield_now(),
            Err(PopError::Closed) => {
                return Haul {
                    handed,
                    finished: true,
                };
            }
        }
    }
    unreachable!()
}

/// The jobs that were handed to all workers, worker by worker.
///
/// # Errors
///
/// There was no memory, here or at one of them.
fn gather(alloc: Global, hauls: Vec<Haul>) -> Result<Vec<u64>, AllocError>
    ensures finished { IfOk result (λ all. All (λ haul. haul.finished ≡ true) hauls.items) }
    ensures all { IfOk result (λ all. all.items ≡ all_handed hauls.items) }
{
    let mut all = Vec::new(alloc);
    for haul in hauls {
        if !haul.finished {
            return Err(AllocError);
        }
        all.extend_from_slice(&haul.handed)?;
    }
    Ok(all)
}
