//! What is parted among threads, and joined again: the one recursion of a crew. It knows nothing of queues.
ghost use Rattle.std.specs.Prelude.{◌≡◌, ◌<◌, ◌≤◌, ◌+◌, ℕ, Bool, false, MatchBool, MatchResult};
ghost use denote.Param.Send.{IsSync};

use crate::limit::Limit;
use std::snapshot::Snapshot;
use std::sync::Wait;
use std::thread;
use std::thread::{Promise, Scope, Threads};

/// How one thing was parted: the whole, what the calling thread keeps of it, and what a thread is given.
#[derive(Drop)]
pub struct Parting<K, G> {
    pub whole: Snapshot<K>,
    pub kept: Snapshot<K>,
    pub given: Snapshot<G>,
}

/// What threads do with the parts of one thing, and how what they bring back is joined.
pub trait Crew: Sync {
    /// What is parted.
    type Kept: Send + Drop;

    /// What a thread is given of it.
    type Given: Send + Drop;

    /// What a thread brings back.
    type Back: Send + Drop;

    /// What comes of all.
    type All: Send + Drop;

    // Holds of what may be parted.
    ghost can_part: { Self → Self.Kept → Type 0 };

    // Holds of a part that may be worked with.
    ghost can_work: { Self → Self.Given → Type 0 };

    // So many pieces of work are not too many.
    ghost fits: { Self → ℕ → Type 0 };

    // The first is parted into the second and the third.
    ghost parted: { Self → Self.Kept → Self.Kept → Self.Given → Type 0 };

    // What the thread of this number brings back of what it was given.
    ghost worked: { Self → ℕ → Self.Given → Self.Back → Type 0 };

    // What comes of this by the threads from this number on: whether all were started, and how many pieces of work were done.
    ghost came: { Self → ℕ → Bool → ℕ → Self.Kept → Self.All → Type 0 };

    // Holds of what cannot be parted any further.
    ghost is_least: { Self → Self.Kept → Type 0 };

    /// Parts off what the thread of this number is given. Where that cannot be, ends what was kept as `end` does.
    fn part(&self, number: u64, kept: Self::Kept) -> Result<(Self::Kept, Self::Given), Self::All>
        requires { can_part self.now kept }
        ensures { MatchResult result
            (λ r. can_part self.now r.0 × can_work self.now r.1 × parted self.now kept r.0 r.1)
            (λ all. came self.now number false 0 kept all × is_least self.now kept) };

    /// Does the work of the thread of this number.
    fn work<R: Wait>(&self, rt: &R, number: u64, given: Self::Given) -> Self::Back
        requires { can_work self.now given }
        ensures { worked self.now number given result };

    /// Ends what was kept, before the thread of this number. Where not all were started, those that were are to end.
    fn end(&self, number: u64, kept: Self::Kept, all_started: bool) -> Self::All
        requires { can_part self.now kept }
        ensures { came self.now number all_started 0 kept result };

    /// Joins what the thread of this number brought back, and what came of so many pieces of work of those after it.
    fn join(
        &self,
        number: u64,
        all_started: bool,
        made: u64,
        parting: Parting<Self::Kept, Self::Given>,
        all: Self::All,
        back: Self::Back,
    ) -> Self::All
        requires parted { parted self.now parting.whole.value parting.kept.value parting.given.value }
        requires came { came self.now (number + 1) all_started made parting.kept.value all }
        requires worked { worked self.now number parting.given.value back }
        requires fits { fits self.now (made + 1) }
        ensures { came self.now number all_started (made + 1) parting.whole.value result };
}

/// What came of a crew.
#[derive(Drop)]
pub struct Ran<T> {
    pub all: T,
    /// How many threads were started.
    pub started: u64,
    /// Whether that is all.
    pub all_started: bool,
    /// How many pieces of work were done: one by each thread, and one by the calling thread where a thread was refused.
    pub made: u64,
}

/// The thread of this number brings back what comes of what it was given.
#[derive(Drop)]
struct Brings<C, G> {
    crew: Snapshot<C>,
    given: Snapshot<G>,
    number: u64,
}

impl<C: Crew> Promise<C::Back> for Brings<C, C::Given> {
    ghost kept_by = { λ p back. C.worked p.crew.value p.number p.given.value back };
}

/// Runs so many threads, each with a part of `kept`, and joins what they bring back.
///
/// Where one cannot be started no further one is. The calling thread ends what it has kept, as the crew does where not all were started, does the piece of work of the thread that was
/// refused, and joins what the others bring back.
pub fn run<R: Threads + Wait + Sync, C: Crew>(
    rt: &R,
    crew: &C,
    kept: C::Kept,
    threads: u64,
    limit: Limit,
) -> Ran<C::All>
    requires can { C.can_part crew.now kept }
    requires fits { (k : ℕ) → k ≤ threads → C.fits crew.now k }
    ensures came { C.came crew.now 0 result.all_started result.made kept result.all }
    ensures made { (result.made ≤ threads) × (result.started ≤ result.made) × (result.made ≤ result.started + 1) }
    ensures started { (result.started ≤ limit.0) × MatchBool result.all_started (result.started ≡ threads) (result.started < threads) }
    ensures some { result.made ≡ 0 → 0 < threads → C.is_least crew.now kept }
{
    thread::scope(
        thread::scope_env(),
        rt,
        |scope| -> Ran<C::All>
            requires { IsSync R.row × IsSync C.row × C.can_part crew.now kept × ((k : ℕ) → k ≤ threads → C.fits crew.now k) }
            ensures came { C.came crew.entry.now 0 result.all_started result.made kept result.all }
            ensures made { (result.made ≤ threads) × (result.started ≤ result.made) × (result.made ≤ result.started + 1) }
            ensures started { (result.started ≤ limit.0) × MatchBool result.all_started (result.started ≡ threads) (result.started < threads) }
            ensures some { result.made ≡ 0 → 0 < threads → C.is_least crew.entry.now kept }
        { run_from(rt, scope, crew, kept, threads, limit, 0) },
    )
}

/// Runs the threads from this number on, and joins what they bring back.
fn run_from<'s, E, R: Threads + Wait + Sync, C: Crew>(
    rt: &'s R,
    scope: &Scope<'s, E>,
    crew: &'s C,
    kept: C::Kept,
    threads: u64,
    limit: Limit,
    number: u64,
) -> Ran<C::All>
    requires can { C.can_part crew.now kept }
    requires fits { (k : ℕ) → k ≤ threads → C.fits crew.now k }
    requires so_far { (number ≤ threads) × (number ≤ limit.0) }
    ensures came { C.came crew.now number result.all_started result.made kept result.all }
    ensures made { (number + result.made ≤ threads) × (result.started ≤ number + result.made) × (number + result.made ≤ result.started + 1) }
    ensures started { (result.started ≤ limit.0) × MatchBool result.all_started (result.started ≡ threads) (result.started < threads) }
    ensures some { result.made ≡ 0 → number < threads → C.is_least crew.now kept }
{
    if number == threads {
        return Ran {
            all: crew.end(number, kept, true),
            started: number,
            all_started: true,
            made: 0,
        };
    }
    let whole = Snapshot::of(&kept);
    match crew.part(number, kept) {
        Err(all) => Ran {
            all,
            started: number,
            all_started: false,
            made: 0,
        },
        Ok((kept, given)) => {
            let parting = Parting {
                whole,
                kept: Snapshot::of(&kept),
                given: Snapshot::of(&given),
            };
            let brings = Brings {
                crew: Snapshot::of(crew),
                given: Snapshot::of(&given),
                number,
            };
            let started = limit.start(
                number,
                scope,
                brings,
                move || -> C::Back
                    requires { IsSync R.row × IsSync C.row × C.can_work crew.now given }
                    ensures { C.worked crew.entry.now number given result }
                { crew.work(rt, number, given) },
            );
            match started {
                Err(refused) => {
                    let all = crew.end(number + 1, kept, false);
                    let back = (refused.value)();
                    Ran {
                        all: crew.join(number, false, 0, parting, all, back),
                        started: number,
                        all_started: false,
                        made: 1,
                    }
                }
                Ok(handle) => {
                    let rest = run_from(rt, scope, crew, kept, threads, limit, number + 1);
                    let back = handle.join(rt);
                    Ran {
                        all: crew.join(
                            number,
                            rest.all_started,
                            rest.made,
                            parting,
                            rest.all,
                            back,
                        ),
                        started: rest.started,
                        all_started: rest.all_started,
                        made: rest.made + 1,
                    }
                }
            }
        }
    }
}
