//! A schedule at whose end one party waits for another.
ghost use Rattle.std.specs.Prelude.{◌≡◌, ◌≢◌, ◌==◌, ◌<◌, ℕ, ⊤, None, false, true, IfOk, MatchOption};
ghost use Rattle.machine_memory.specs.declared.types.Told.TheVariants.{Ran};
ghost use Rattle.machine_replay.specs.Progress.{Between, Standing as CallStanding, stands_then};
ghost use Rattle.machine_replay.specs.Replays.{CanReplay};
ghost use Rattle.machine_explore.specs.Waiting.{GoesRound, IsSentBack, IsWaitOf, is_first, is_half_done, side_at, stands_seen, wait_of};

use crate::position::Position;
use crate::program::Program;
use crate::schedule::Move;
use crate::trace::{TraceEntry, go};
use machine_replay::types::{Event, Told};
use queue_steps::model::Call;
use queue_steps::sizes::STEPS_ALONE;
use queue_steps::steps::{ChainLocal, Kind, Local, RingLocal};
use std::alloc::{AllocError, Allocator};

/// One side of a wait.
#[derive(Clone, Copy)]
pub struct Side {
    /// The party's number.
    pub party: usize,
    /// The call that it began last.
    pub call: Option<Call<u64>>,
    /// Where that stands, if the party is in it.
    pub local: Option<Local<usize>>,
}

/// Who waits for whom.
#[derive(Drop)]
pub struct Wait<A: Allocator> {
    /// Who waits.
    pub waiter: Side,
    /// Who is half done.
    pub other: Side,
    /// What is seen of the schedule at whose end the one waits for the other.
    pub entries: Vec<TraceEntry<A>, A>,
}

/// What is seen of the schedule, if at its end the one party waits for the other. Whoever made the schedule is not trusted.
///
/// # Errors
///
/// Where there is no memory, for a block too, or no queue may have the capacity.
pub fn show_wait<A: Allocator + Copy>(
    alloc: A,
    kind: Kind,
    refuses: bool,
    program: &Program<A>,
    schedule: &[Move],
    waiter: usize,
    other: usize,
) -> Result<Option<Wait<A>>, AllocError>
    requires { CanReplay kind }
    ensures { IfOk result (λ o. MatchOption o ⊤ (λ wait. IsWaitOf kind refuses program.now.before program.now.parties.items schedule.now (wait_of wait))) }
{
    let Some(way) = go(alloc, kind, refuses, program, schedule)? else {
        return Ok(None);
    };
    let entries = way.entries.as_slice();
    if !is_alone_half_done(entries, program.parties.len(), waiter, other) {
        return Ok(None);
    }
    if !goes_round(alloc, &way.position, waiter)? {
        return Ok(None);
    }
    if !is_sent_back(alloc, &way.position, waiter)? {
        return Ok(None);
    }
    Ok(Some(Wait {
        waiter: side_of(program, &way.position, waiter),
        other: side_of(program, &way.position, other),
        entries: way.entries,
    }))
}

/// The party as a side of a wait.
pub fn side_of<A: Allocator + Copy>(
    program: &Program<A>,
    position: &Position<A>,
    party: usize,
) -> Side
    ensures { result ≡ side_at program.now.parties.items position.now party }
{
    let (begun, _) = position.counts(party);
    Side {
        party,
        call: program.call(party, begun.saturating_sub(1)),
        local: position.local(party),
    }
}

/// Whether a call stands at the first step of a push, a forced push or a pop, on a ring or a chain.
pub fn is_first(local: Option<Local<usize>>) -> bool
    ensures { result ≡ is_first local }
{
    match local {
        Some(Local::Ring(local)) => match local {
            RingLocal::PushTail(_) | RingLocal::PopHead => true,
            _ => false,
        },
        Some(Local::Chain(local)) => match local {
            ChainLocal::PushTail(_, _) | ChainLocal::PopHead => true,
            _ => false,
        },
        _ => false,
    }
}

// Whether the party goes round.
fn goes_round<A: Allocator + Copy>(
    alloc: A,
    position: &Position<A>,
    party: usize,
) -> Result<bool, AllocError>
    ensures { IfOk result (λ yes. yes ≡ true → GoesRound position.now.kind position.now.world party) }
{
    let mut later = position.fork(alloc)?;
    for _ in 0..STEPS_ALONE {
        let told = later.take(alloc, party, Event::Step(party, true))?;
        if !is_quiet(told) {
            return Ok(false);
        }
        if later.is_same(position) {
            return Ok(true);
        }
    }
    Ok(false)
}

/// Whether this tells neither of an effect nor of a reply.
pub(crate) fn is_quiet(told: Told<u64>) -> bool
    ensures yes { result ≡ true → told ≡ Ran None None }
    ensures no { result ≡ false → told ≢ Ran None None }
{
    match told {
        Told::Ran(None, None) => true,
        _ => false,
    }
}

// Whether the party's next step sends it back.
fn is_sent_back<A: Allocator + Copy>(
    alloc: A,
    position: &Position<A>,
    party: usize,
) -> Result<bool, AllocError>
    ensures { IfOk result (λ yes. yes ≡ true → IsSentBack position.now.kind position.now.world party) }
{
    let mut later = position.fork(alloc)?;
    later.take(alloc, party, Event::Step(party, true))?;
    if later.is_same(position) {
        return Ok(true);
    }
    Ok(is_first(later.local(party)))
}

// Whether of so many parties, but for the one that waits, the other alone is half done.
fn is_alone_half_done<A: Allocator>(
    entries: &[TraceEntry<A>],
    parties: usize,
    waiter: usize,
    other: usize,
) -> bool
    ensures there { result ≡ true → other < parties }
    ensures apart { result ≡ true → waiter ≢ other }
    ensures half { result ≡ true → (q : ℕ) → q < parties → q ≢ waiter → is_half_done (stands_seen q Between entries.now) ≡ (q == other) }
{
    if other >= parties || waiter == other {
        return false;
    }
    for party in 0..parties {
        let is_half = is_half_done(entries, party);
        let is_other = party == other;
        if party != waiter && is_half != is_other {
            return false;
        }
    }
    true
}

// Whether the party is half done, after what is seen since it was between calls.
fn is_half_done<A: Allocator>(entries: &[TraceEntry<A>], party: usize) -> bool
    ensures { result ≡ is_half_done (stands_seen party Between entries.now) }
{
    let mut is_half = false;
    for entry in entries {
        is_half = is_half_after(is_half, party, entry);
    }
    is_half
}

// Whether the party is half done after an event more.
fn is_half_after<A: Allocator>(is_half: bool, party: usize, entry: &TraceEntry<A>) -> bool
    ensures { (x : CallStanding) → is_half_done x ≡ is_half → is_half_done (stands_then party x entry.now.event entry.now.told) ≡ result }
{
    if entry.party() != party {
        return is_half;
    }
    match entry.told() {
        Told::Ran(_, Some(_)) => false,
        Told::Ran(Some(_), None) => true,
        Told::Ran(None, None) | Told::Skipped => is_half,
    }
}
