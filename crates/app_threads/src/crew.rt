//! Threads that push and pop on one queue, each with a party of its own.
ghost use Rattle.std.specs.Prelude.{◌≡◌, ◌<◌, ◌+◌, ◌*◌, ◌^◌, ◌&&◌, [], ◌∷◌, ⊤, false, length, replicate, IfOk, MatchBool, MatchOption};
ghost use Rattle.queue_steps.specs.declared.model.Effect.TheVariants as effect;
ghost use Rattle.queue_steps.specs.Parties.{IsView};
ghost use Rattle.concurrent_queue.specs.Shared.{IsPartyOf, Joins, Parts};
ghost use Rattle.app_threads.specs.Counts.{EachSumFits, AreSums};
ghost use Rattle.law_parties.specs.Doings.{Acts};
ghost use Rattle.app_threads.specs.Works.{IsWork, Quits};

use crate::counts::{add, count, none_counted};
use crate::limit::Limit;
use concurrent_queue::{ConcurrentQueue, Party, PopError, PushError};
use crossbeam_utils::Backoff;
use mem_blocks::null_testable::NullTestable;
use queue_crew::crew::{Crew, Parting, run};
use std::alloc::{AllocError, Allocator, Global};
use std::sync::Wait;
use std::thread::Threads;

/// The queue that the threads of the program share.
pub type Queue = ConcurrentQueue<u64>;

/// How many threads push and how many pop, how much each has to do, and how many may be started.
#[derive(Clone, Copy)]
pub struct Plan {
    pub pushers: u64,
    pub poppers: u64,
    pub items: u64,
    pub share: u64,
    pub limit: Limit,
}

/// What came of a party's work.
#[derive(Drop)]
pub struct WorkResult {
    pub party: Party<u64>,
    /// How often each value was popped.
    pub counts: Vec<u64>,
    /// Whether all was done. If not, the queue was closed.
    pub done: bool,
}

/// What the calling thread keeps: a party, and a count for each value.
#[derive(Drop)]
struct Hand {
    party: Party<u64>,
    counts: Vec<u64>,
}

/// Threads that push and pop as a plan says. Each gives back its party, and counts what that took: of each value no more than the plan's share.
#[derive(Drop)]
struct Counting<'a, A: Allocator> {
    queue: &'a ConcurrentQueue<u64, A>,
    alloc: Global,
    plan: Plan,
}

impl<'a, A: NullTestable + Send + Sync> Crew for Counting<'a, A> {
    type Kept = Hand;

    type Given = Party<u64>;

    type Back = WorkResult;

    type All = WorkResult;

    ghost can_part = { λ c k. IsPartyOf k.party c.queue.now × (k.counts.items ≡ replicate c.plan.items 0) };

    ghost can_work = { λ c g. IsPartyOf g c.queue.now };

    ghost fits = { λ c n. n * c.plan.share < 2 ^ 64 };

    ghost parted = { λ c w k g. IsView w.party.queue.cap w.party.view × Parts w.party k.party g };

    ghost worked = { λ c n g work. IsWork c.queue.now c.plan.items c.plan.share g work };

    ghost came = { λ c n started made k work. IsWork c.queue.now c.plan.items (made * c.plan.share) k.party work × (length work.counts.items ≡ c.plan.items) };

    ghost is_least = { λ c k. ⊤ };

    fn part(&self, number: u64, kept: Hand) -> Result<(Hand, Party<u64>), WorkResult> {
        let Hand { party, counts } = kept;
        party.show_view();
        match self.queue.split(party) {
            Ok((party, given)) => Ok((Hand { party, counts }, given)),
            Err(party) => Err(self.end(number, Hand { party, counts }, false)),
        }
    }

    /// The pushers come first.
    fn work<R: Wait>(&self, rt: &R, number: u64, given: Party<u64>) -> WorkResult {
        if number < self.plan.pushers {
            push_all(rt, self.alloc, self.queue, given, self.plan)
        } else {
            pop_all(rt, self.alloc, self.queue, given, self.plan)
        }
    }

    /// Closes the queue where not all threads were started, so that the others end.
    fn end(&self, _number: u64, kept: Hand, all_started: bool) -> WorkResult {
        let Hand { party, counts } = kept;
        if !all_started {
            return give_up(self.queue, party, counts);
        }
        WorkResult {
            party,
            counts,
            done: true,
        }
    }

    fn join(
        &self,
        _number: u64,
        _all_started: bool,
        made: u64,
        parting: Parting<Hand, Party<u64>>,
        all: WorkResult,
        back: WorkResult,
    ) -> WorkResult
        requires parted { IsView parting.whole.value.party.queue.cap parting.whole.value.party.view × Parts parting.whole.value.party parting.kept.value.party parting.given.value }
        requires came { IsWork self.now.queue.now self.now.plan.items (made * self.now.plan.share) parting.kept.value.party all × (length all.counts.items ≡ self.now.plan.items) }
        requires worked { IsWork self.now.queue.now self.now.plan.items self.now.plan.share parting.given.value back }
        requires fits { (made + 1) * self.now.plan.share < 2 ^ 64 }
        ensures { IsWork self.now.queue.now self.now.plan.items ((made + 1) * self.now.plan.share) parting.whole.value.party result × (length result.counts.items ≡ self.now.plan.items) }
    {
        both(self.queue, all, back)
    }
}

/// Runs all threads of a plan, joins them, and adds up what they counted.
///
/// Where one cannot be started the queue is closed, so that the others end.
///
/// # Errors
///
/// The allocator refused the counts. No thread was started.
pub fn run_all<R: Threads + Wait + Sync, A: NullTestable + Send + Sync>(
    rt: &R,
    alloc: Global,
    queue: &ConcurrentQueue<u64, A>,
    party: Party<u64>,
    plan: Plan,
) -> Result<WorkResult, AllocError>
    requires of { IsPartyOf party queue.now }
    requires few { (plan.pushers + plan.poppers) * plan.share < 2 ^ 64 }
    requires threads { plan.pushers + plan.poppers < 2 ^ 64 }
    ensures { IfOk result (λ work. IsWork queue.now plan.items ((plan.pushers + plan.poppers) * plan.share) party work × (length work.counts.items ≡ plan.items)) }
{
    let counts = none_counted(alloc, plan.items)?;
    let crew = Counting { queue, alloc, plan };
    let threads = plan.pushers + plan.poppers;
    let ran = run(rt, &crew, Hand { party, counts }, threads, plan.limit);
    Ok(ran.all)
}

/// Closes the queue, so that whoever works on it ends.
fn shut<A: Allocator>(queue: &ConcurrentQueue<u64, A>, party: &mut Party<u64>)
    requires { IsPartyOf party.old queue.now }
    ensures { Quits party.old party.new }
{
    party.show_view();
    queue.close(party);
}

/// Closes the queue, so that the threads that were started end.
fn give_up<A: Allocator>(
    queue: &ConcurrentQueue<u64, A>,
    mut party: Party<u64>,
    counts: Vec<u64>,
) -> WorkResult
    requires { IsPartyOf party queue.now }
    ensures quits { Quits party result.party }
    ensures same { (result.counts.items ≡ counts.items) × (result.done ≡ false) }
{
    shut(queue, &mut party);
    WorkResult {
        party,
        counts,
        done: false,
    }
}

/// The work of both, whose parties become one.
fn both<A: Allocator>(
    queue: &ConcurrentQueue<u64, A>,
    ours: WorkResult,
    theirs: WorkResult,
) -> WorkResult
    requires of { IsPartyOf ours.party queue.now × IsPartyOf theirs.party queue.now }
    requires fits { EachSumFits ours.counts.items theirs.counts.items }
    ensures views { IsView ours.party.queue.cap ours.party.view × IsView theirs.party.queue.cap theirs.party.view }
    ensures joined { Joins ours.party theirs.party result.party }
    ensures sums { AreSums ours.counts.items theirs.counts.items result.counts.items }
    ensures done { result.done ≡ (ours.done && theirs.done) }
{
    ours.party.show_view();
    theirs.party.show_view();
    let WorkResult {
        party,
        mut counts,
        done,
    } = ours;
    add(&mut counts, &theirs.counts);
    WorkResult {
        party: queue.join(party, theirs.party),
        counts,
        done: done && theirs.done,
    }
}

/// Pushes the numbers from 0 up to that of the items, which is left out.
fn push_all<R: Wait, A: NullTestable>(
    rt: &R,
    alloc: Global,
    queue: &ConcurrentQueue<u64, A>,
    mut party: Party<u64>,
    plan: Plan,
) -> WorkResult
    requires { IsPartyOf party queue.now }
    ensures { IsWork queue.now plan.items plan.share party result }
{
    for value in 0..plan.items {
        if !push_one(rt, queue, &mut party, value) {
            return WorkResult {
                party,
                counts: Vec::new(alloc),
                done: false,
            };
        }
    }
    WorkResult {
        party,
        counts: Vec::new(alloc),
        done: true,
    }
}

/// Pops a share of the items, and counts them.
fn pop_all<R: Wait, A: Allocator>(
    rt: &R,
    alloc: Global,
    queue: &ConcurrentQueue<u64, A>,
    mut party: Party<u64>,
    plan: Plan,
) -> WorkResult
    requires { IsPartyOf party queue.now }
    ensures { IsWork queue.now plan.items plan.share party result }
{
    let Ok(mut counts) = none_counted(alloc, plan.items) else {
        return give_up(queue, party, Vec::new(alloc));
    };
    for _ in 0..plan.share {
        match pop_one(rt, queue, &mut party) {
            Some(value) => count(&mut counts, value),
            None => {
                return WorkResult {
                    party,
                    counts,
                    done: false,
                };
            }
        }
    }
    WorkResult {
        party,
        counts,
        done: true,
    }
}

/// Pushes a value, and tries again while the queue is full. Gives false where the queue was found closed, or had no
/// memory. In the latter case it closes the queue.
fn push_one<R: Wait, A: NullTestable>(
    rt: &R,
    queue: &ConcurrentQueue<u64, A>,
    party: &mut Party<u64>,
    value: u64,
) -> bool
    requires { IsPartyOf party.old queue.now }
    ensures { MatchBool result (Acts party.old party.new (effect.Append value ∷ [])) (Quits party.old party.new) }
{
    let backoff = Backoff::new();
    for _ in rt.forever() {
        party.show_view();
        match queue.push(rt, party, value) {
            Ok(()) => return true,
            Err(PushError::Full(_)) => backoff.snooze(),
            Err(PushError::Closed(_)) => return false,
            Err(PushError::NoMemory(_)) => {
                shut(queue, party);
                return false;
            }
        }
    }
    unreachable!()
}

/// Pops an item, and tries again while the queue is empty. Gives none where the queue was found closed.
fn pop_one<R: Wait, A: Allocator>(
    rt: &R,
    queue: &ConcurrentQueue<u64, A>,
    party: &mut Party<u64>,
) -> Option<u64>
    requires { IsPartyOf party.old queue.now }
    ensures { MatchOption result (Quits party.old party.new) (λ value. Acts party.old party.new (effect.Take value ∷ [])) }
{
    let backoff = Backoff::new();
    for _ in rt.forever() {
        party.show_view();
        match queue.pop(rt, party) {
            Ok(value) => return Some(value),
            Err(PopError::Empty) => backoff.snooze(),
            Err(PopError::Closed) => return None,
        }
    }
    unreachable!()
}
