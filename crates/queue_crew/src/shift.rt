//! The work that threads do on a shared queue, and what comes of it.
ghost use Rattle.std.specs.Prelude.{◌≡◌, ◌<◌, ◌≤◌, ◌+◌, ℕ, [], length, IfOk, IfErr, MatchBool};
ghost use Rattle.queue_steps.specs.Shares.{SamePart, IsEntire};
ghost use Rattle.concurrent_queue.specs.Shared.{PartyView, IsPartyOf};
ghost use Rattle.queue_crew.specs.Work.{HasWorked};

use crate::crew::run;
use crate::limit::Limit;
use crate::on_queue::{Hand, OnQueue};
use crate::refusal::OnRefusal;
use concurrent_queue::{ConcurrentQueue, Party};
use std::alloc::{Allocator, Global};
use std::sync::Wait;
use std::thread::Threads;

/// What each thread does on the queue, with a party of its own.
pub trait Shift<T, A: Allocator>: Sync {
    /// What a thread brings.
    type Post: Send + Drop;

    // What the post of the thread of this number reports of the thread's party. All that the party has done is this thread's work.
    ghost reports: { Self → ℕ → PartyView T → Self.Post → Type 0 };

    /// Does the work of the thread of this number. The threads are numbered from 0 on.
    fn work<R: Wait>(
        &self,
        rt: &R,
        queue: &ConcurrentQueue<T, A>,
        number: u64,
        party: &mut Party<T>,
    ) -> Self::Post
        requires of { IsPartyOf party.old queue.now }
        requires fresh { party.old.view.mine ≡ [] }
        ensures of { IsPartyOf party.new queue.now }
        ensures share { SamePart party.new.view.share party.old.view.share }
        ensures reports { reports self.now number party.new result };
}

/// How many threads are to work, how many may be started, and what is done where not all can be.
#[derive(Clone, Copy)]
pub struct Roster {
    pub threads: u64,
    pub limit: Limit,
    pub on_refusal: OnRefusal,
}

/// What came of a crew: the party that all parties have become, and what each piece of work brought, in the order of the threads.
#[derive(Drop)]
pub struct Gathered<T, P> {
    pub party: Party<T>,
    pub posts: Vec<P>,
    /// How many threads were started.
    pub started: u64,
    /// Whether that is all.
    pub all_started: bool,
}

/// Runs so many threads on the queue, each with a party that is parted off `party`, and joins their parties again.
///
/// Where a thread is refused, or the queue may have no more parties, no further thread is started. The calling thread does with its party what the roster says, then the work of the
/// thread that was refused, and joins the others' parties.
///
/// # Errors
///
/// There was no memory for the posts. No thread was started, and the party comes back.
pub fn run_shift<
    R: Threads + Wait + Sync,
    T: Send + Drop,
    A: Allocator + Send + Sync,
    S: Shift<T, A>,
>(
    rt: &R,
    alloc: Global,
    queue: &ConcurrentQueue<T, A>,
    party: Party<T>,
    shift: &S,
    roster: Roster,
) -> Result<Gathered<T, S::Post>, Party<T>>
    requires { IsPartyOf party queue.now }
    ensures err { IfErr result (λ back. back ≡ party) }
    ensures worked { IfOk result (λ g. HasWorked (S.reports shift.now) queue.now roster.on_refusal g.all_started party g.party g.posts.items) }
    ensures started { IfOk result (λ g. (g.started ≤ roster.limit.0) × MatchBool g.all_started (g.started ≡ roster.threads) (g.started < roster.threads)) }
    ensures made { IfOk result (λ g. (length g.posts.items ≤ roster.threads) × (g.started ≤ length g.posts.items) × (length g.posts.items ≤ g.started + 1)) }
    ensures some { IfOk result (λ g. IsEntire party.view.share → 0 < roster.threads → 0 < length g.posts.items) }
{
    let Ok(posts) = Vec::with_capacity(alloc, roster.threads as usize) else {
        return Err(party);
    };
    let crew = OnQueue {
        queue,
        shift,
        threads: roster.threads,
        on_refusal: roster.on_refusal,
    };
    let ran = run(
        rt,
        &crew,
        Hand { party, posts },
        roster.threads,
        roster.limit,
    );
    let Hand { party, mut posts } = ran.all;
    posts.reverse();
    Ok(Gathered {
        party,
        posts,
        started: ran.started,
        all_started: ran.all_started,
    })
}
