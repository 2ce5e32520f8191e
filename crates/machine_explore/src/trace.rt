//! A schedule is run once more, and what is seen of the run is kept.
ghost use Rattle.std.specs.Prelude.{◌≡◌, ⊤, Bool, true, [], IfOk, MatchOption};
ghost use Rattle.machine_replay.specs.Conforms.{party_of};
ghost use Rattle.machine_replay.specs.Replays.{CanReplay};
ghost use Rattle.machine_explore.specs.Traces.{Course, IsOneMore, IsSeen, IsTraceOf, IsWayOf, Seen};

use crate::outcome::Outcome;
use crate::position::Position;
use crate::program::Program;
use crate::schedule::Move;
use crate::sequence::Sequence;
use machine_replay::types::{Event, Told};
use queue_steps::steps::{Kind, Local};
use std::alloc::{AllocError, Allocator};
use std::marker::Model;

/// What is seen of an event.
#[derive(Drop)]
pub struct TraceEntry<A: Allocator> {
    event: Event<u64>,
    local: Option<Local<usize>>,
    told: Told<u64>,
    list: Vec<u64, A>,
}

impl<A: Allocator> Model for TraceEntry<A> {
    ghost Value = { Seen };

    ghost view = { λ t. record { event = t.event; local = t.local; told = t.told; list = t.list.items } };
}

impl<A: Allocator> TraceEntry<A> {
    /// The event.
    pub fn event(&self) -> Event<u64>
        ensures { result ≡ self.now.event }
    {
        self.event
    }

    /// Whose event it is.
    pub fn party(&self) -> usize
        ensures { result ≡ party_of self.now.event }
    {
        match self.event {
            Event::Begin(party, _) | Event::Step(party, _) => party,
        }
    }

    /// Where the party's call stood before it, if it was in one.
    pub fn local(&self) -> Option<Local<usize>>
        ensures { result ≡ self.now.local }
    {
        self.local
    }

    /// What was told of it.
    pub fn told(&self) -> Told<u64>
        ensures { result ≡ self.now.told }
    {
        self.told
    }

    /// The list behind it, front first.
    pub fn list(&self) -> &[u64]
        ensures { result.now ≡ self.now.list }
    {
        self.list.as_slice()
    }
}

/// What is seen of a whole run.
#[derive(Drop)]
pub struct Trace<A: Allocator> {
    opening: Vec<u64, A>,
    entries: Vec<TraceEntry<A>, A>,
    outcome: Outcome<A>,
}

impl<A: Allocator> Model for Trace<A> {
    ghost Value = { Course };

    ghost view = { λ t. record { opening = t.opening.items; seen = t.entries.items; outcome = t.outcome } };
}

impl<A: Allocator> Trace<A> {
    /// The list behind the calls that come first, front first.
    pub fn opening(&self) -> &[u64]
        ensures { result.now ≡ self.now.opening }
    {
        self.opening.as_slice()
    }

    /// What is seen of each event behind them.
    pub fn entries(&self) -> &[TraceEntry<A>]
        ensures { result.now ≡ self.now.seen }
    {
        self.entries.as_slice()
    }

    /// What the run ends with.
    pub fn outcome(&self) -> &Outcome<A>
        ensures { result.now ≡ self.now.outcome }
    {
        &self.outcome
    }

    /// The same, and nothing else of it.
    pub(crate) fn into_outcome(self) -> Outcome<A>
        ensures { result ≡ self.outcome }
    {
        self.outcome
    }
}

/// What is seen of the run that the program makes by these moves, if they are a whole run of it.
///
/// # Errors
///
/// Where there is no memory, for a block too, or no queue may have the capacity.
pub fn follow<A: Allocator + Copy>(
    alloc: A,
    kind: Kind,
    refuses: bool,
    program: &Program<A>,
    schedule: &[Move],
) -> Result<Option<Trace<A>>, AllocError>
    requires { CanReplay kind }
    ensures { IfOk result (λ o. MatchOption o ⊤ (IsTraceOf kind refuses program.now.before program.now.parties.items schedule.now)) }
{
    let Some(way) = go(alloc, kind, refuses, program, schedule)? else {
        return Ok(None);
    };
    if !way.position.has_begun_all(program) || !way.position.is_final(program) {
        return Ok(None);
    }
    let outcome = way.position.outcome(alloc)?;
    Ok(Some(Trace {
        opening: way.opening,
        entries: way.entries,
        outcome,
    }))
}

/// How far a schedule leads: what is seen of it, and where the run then stands.
#[derive(Drop)]
pub(crate) struct Way<A: Allocator> {
    pub(crate) opening: Vec<u64, A>,
    pub(crate) entries: Vec<TraceEntry<A>, A>,
    pub(crate) position: Position<A>,
}

/// Takes these moves, one after another, if each can be taken.
pub(crate) fn go<A: Allocator + Copy>(
    alloc: A,
    kind: Kind,
    refuses: bool,
    program: &Program<A>,
    schedule: &[Move],
) -> Result<Option<Way<A>>, AllocError>
    requires { CanReplay kind }
    ensures { IfOk result (λ o. MatchOption o ⊤ (λ way. IsWayOf kind refuses program.now.before program.now.parties.items schedule.now way.opening.items way.entries.items way.position)) }
{
    let Some(mut way) = Way::start(alloc, kind, program)? else {
        return Ok(None);
    };
    for step in schedule {
        if !way.go_on(alloc, refuses, program, *step)? {
            return Ok(None);
        }
    }
    Ok(Some(way))
}

impl<A: Allocator + Copy> Way<A> {
    // Where runs of the program start, before a move.
    fn start(alloc: A, kind: Kind, program: &Program<A>) -> Result<Option<Way<A>>, AllocError>
        requires { CanReplay kind }
        ensures { IfOk result (λ o. MatchOption o ⊤ (λ way. (refuses : Bool) → IsWayOf kind refuses program.now.before program.now.parties.items [] way.opening.items way.entries.items way.position)) }
    {
        let Some(position) = Position::start(alloc, kind, program)? else {
            return Ok(None);
        };
        let opening = position.list(alloc)?;
        let entries = Vec::new(alloc);
        Ok(Some(Way {
            opening,
            entries,
            position,
        }))
    }

    // Takes a move more, if it can be taken.
    fn go_on(
        &mut self,
        alloc: A,
        refuses: bool,
        program: &Program<A>,
        step: Move,
    ) -> Result<bool, AllocError>
        ensures opening { self.new.opening ≡ self.old.opening }
        ensures more { IfOk result (λ yes. yes ≡ true → IsOneMore refuses program.now.parties.items step self.old.entries.items self.old.position self.new.entries.items self.new.position) }
    {
        if !step.granted && !refuses {
            return Ok(false);
        }
        let Some(entry) = enter(alloc, program, &mut self.position, step)? else {
            return Ok(false);
        };
        self.entries.push(entry)?;
        Ok(true)
    }
}

// Takes a move in place. What is seen of its event, if its party goes on.
fn enter<A: Allocator + Copy>(
    alloc: A,
    program: &Program<A>,
    position: &mut Position<A>,
    step: Move,
) -> Result<Option<TraceEntry<A>>, AllocError>
    ensures { IfOk result (λ o. MatchOption o ⊤ (λ x. IsSeen program.now.parties.items position.old step x position.new)) }
{
    let Some(event) = position.event(program, step.party, step.granted) else {
        return Ok(None);
    };
    let local = position.local(step.party);
    let told = position.take(alloc, step.party, event)?;
    let list = position.list(alloc)?;
    Ok(Some(TraceEntry {
        event,
        local,
        told,
        list,
    }))
}
