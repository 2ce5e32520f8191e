//! Where a run of a program stands, and how it goes on.
ghost use Rattle.std.specs.Prelude.{◌≡◌, ◌↔◌, ℕ, ◌<◌, ◌∷◌, Bool, true, false, ⊤, [], None, is_some, IsTrue, IfOk, OnOk, MatchOption, length, option_map, replicate};
ghost use Rattle.machine_replay.specs.MachineRuns.{IsSomeMachineRun};
ghost use Rattle.machine_replay.specs.Conforms.{party_of};
ghost use Rattle.machine_steps.specs.Left.{left_of};
ghost use Rattle.machine_steps.specs.Machine.{event_of, world_of};
ghost use Rattle.machine_replay.specs.Played.{local_in};
ghost use Rattle.machine_steps.specs.World.{call_at};
ghost use Rattle.machine_memory.specs.declared.types.Event.TheVariants.{Step};
ghost use Rattle.machine_replay.specs.Replays.{CanReplay};
ghost use Rattle.machine_explore.specs.Moves.{event_at, led};
ghost use Rattle.machine_explore.specs.Positions.{IsFinal, Standing, calls_of, no_progress, outcome_at, progress_of};
ghost use Rattle.machine_explore.specs.Starts.{IsPrepared, IsStart};

use crate::outcome::Outcome;
use crate::program::Program;
use crate::progress::PartyProgress;
use crate::sequence::Sequence;
use machine_replay::machine_run::MachineRun;
use machine_replay::types::{Event, Handled, Told};
use queue_steps::model::Call;
use queue_steps::sizes::STEPS_ALONE;
use queue_steps::steps::{Kind, Local};
use std::alloc::{AllocError, Allocator};
use std::hash::{FoldHasher, Hasher};
use std::marker::Model;

/// Where a run of a program stands: what the parties share, the call that each is in, and how far each is.
#[derive(Drop)]
pub struct Position<A: Allocator> {
    run: MachineRun<u64, A>,
    parties: Vec<PartyProgress<A>, A>,
}

impl<A: Allocator> Model for Position<A> {
    ghost Value = { Standing };

    ghost view = { λ s. record { kind = s.run.machine.kind; world = world_of s.run.machine; parties = s.parties.items } };

    ghost invariant = { λ s. IsSomeMachineRun s.run };
}

impl<A: Allocator + Copy> Position<A> {
    /// Where the run stands once party 0 has made the calls that come first. Nowhere, if one of them does not end alone, which no call does.
    ///
    /// # Errors
    ///
    /// Where there is no memory, for a block too, or no queue may have the capacity.
    pub fn start(
        alloc: A,
        kind: Kind,
        program: &Program<A>,
    ) -> Result<Option<Position<A>>, AllocError>
        requires { CanReplay kind }
        ensures { IfOk result (λ o. MatchOption o ⊤ (IsStart kind program.now.before (length program.now.parties.items))) }
    {
        let count = program.parties.len();
        let mut run = MachineRun::new(alloc, kind, count, 0)?;
        if !make_all(alloc, &mut run, program.before.as_slice())? {
            return Ok(None);
        }
        let parties = none_begun(alloc, count)?;
        Ok(Some(Position { run, parties }))
    }

    /// Which queue it is.
    pub fn kind(&self) -> Kind
        ensures { result ≡ self.now.kind }
    {
        self.run.kind()
    }

    /// How far each party is, by its number.
    pub fn parties(&self) -> &[PartyProgress<A>]
        ensures { result.now ≡ self.now.parties }
    {
        self.parties.as_slice()
    }

    /// Whether so many parties share the queue.
    pub fn has_parties(&self, count: usize) -> bool
        ensures { result ≡ true → (length self.now.parties ≡ count) × (length self.now.world.calls ≡ count) }
    {
        self.parties.len() == count && self.run.parties() == count
    }

    /// Whether the party is in a call.
    pub fn is_in_call(&self, party: usize) -> bool
        ensures { result ≡ is_some (call_at self.now.world party) }
    {
        self.run.is_in_call(party)
    }

    /// Where the party's call stands, if it is in one.
    pub fn local(&self, party: usize) -> Option<Local<usize>>
        ensures { result ≡ local_in (call_at self.now.world party) }
    {
        self.run.local(party)
    }

    /// Whether the next step of the party asks for a block.
    pub fn asks(&self, party: usize) -> bool
        ensures { result ≡ false → (granted : Bool) → event_of self.now.kind true self.now.world (Step party granted) ≡ event_of self.now.kind true self.now.world (Step party true) }
    {
        self.run.asks(party)
    }

    /// The event by which the party goes on: a step of the call that it is in, or else the beginning of its next call. None once it has made them all.
    pub fn event(&self, program: &Program<A>, party: usize, granted: bool) -> Option<Event<u64>>
        ensures { result ≡ event_at program.now.parties.items self.now party granted }
    {
        if self.run.is_in_call(party) {
            return Some(Event::Step(party, granted));
        }
        match program.call(party, self.counts(party).0) {
            Some(call) => Some(Event::Begin(party, call)),
            None => None,
        }
    }

    /// How many of its calls the party has begun, and how many replies it has got.
    pub(crate) fn counts(&self, party: usize) -> (usize, usize)
        ensures { (result.0 ≡ (progress_of self.now party).begun) × (result.1 ≡ length (progress_of self.now party).replies) }
    {
        match self.parties.get(party) {
            Some(progress) => (progress.begun(), progress.replies().len()),
            None => (0, 0),
        }
    }

    /// A copy.
    ///
    /// # Errors
    ///
    /// Where there is no memory.
    pub(crate) fn fork(&self, alloc: A) -> Result<Position<A>, AllocError>
        ensures { IfOk result (λ p. p ≡ self.now) }
    {
        let mut parties = Vec::with_capacity(alloc, self.parties.len())?;
        for party in self.parties.as_slice() {
            parties.push_reserved(party.copy(alloc)?);
        }
        let run = self.run.fork(alloc)?;
        Ok(Position { run, parties })
    }

    /// Takes an event of the party in place, and tells of it.
    ///
    /// # Errors
    ///
    /// Where there is no memory, for a block too that the event does not refuse.
    pub(crate) fn take(
        &mut self,
        alloc: A,
        party: usize,
        event: Event<u64>,
    ) -> Result<Told<u64>, AllocError>
        requires { party_of event ≡ party }
        ensures told { IfOk result (λ told. told ≡ (event_of self.old.kind true self.old.world event).1) }
        ensures leads { OnOk result (self.new ≡ led self.old.kind self.old event) }
    {
        let told = handle(alloc, &mut self.run, event)?;
        if party < self.parties.len() {
            self.parties[party].advance(event, told)?;
        }
        Ok(told)
    }

    /// Where the run stands after the event by which the party goes on.
    ///
    /// # Errors
    ///
    /// Where there is no memory, for a block too that the event does not refuse.
    pub fn after(
        &self,
        alloc: A,
        program: &Program<A>,
        party: usize,
        granted: bool,
    ) -> Result<Option<Position<A>>, AllocError>
        ensures { IfOk result (λ o. o ≡ option_map (led self.now.kind self.now) (event_at program.now.parties.items self.now party granted)) }
    {
        let Some(event) = self.event(program, party, granted) else {
            return Ok(None);
        };
        let mut later = self.fork(alloc)?;
        later.take(alloc, party, event)?;
        Ok(Some(later))
    }

    /// Whether it is the same as the other.
    pub fn is_same(&self, other: &Position<A>) -> bool
        ensures { result ≡ true → self.now ≡ other.now }
    {
        self.run.is_same(&other.run) && are_as_far(&self.parties, &other.parties)
    }

    /// A hash, which equal positions have in common, and few others.
    pub fn fingerprint(&self) -> u64 {
        let mut state = FoldHasher::default();
        state.write_u64(self.run.fingerprint());
        for party in self.parties.as_slice() {
            party.feed(&mut state);
        }
        state.finish()
    }

    /// Whether each party has a reply to each of its calls.
    pub fn is_final(&self, program: &Program<A>) -> bool
        ensures { IsTrue result ↔ IsFinal program.now.parties.items self.now }
    {
        for party in 0..program.parties.len() {
            if self.counts(party).1 != program.call_count(party) {
                return false;
            }
        }
        true
    }

    /// Whether each party has begun all of its calls.
    pub(crate) fn has_begun_all(&self, program: &Program<A>) -> bool
        ensures { result ≡ true → (p : ℕ) → p < length program.now.parties.items → (progress_of self.now p).begun ≡ length (calls_of program.now.parties.items p) }
    {
        for party in 0..program.parties.len() {
            if self.counts(party).0 != program.call_count(party) {
                return false;
            }
        }
        true
    }

    /// What the run has ended with.
    ///
    /// # Errors
    ///
    /// Where there is no memory.
    pub fn outcome(&self, alloc: A) -> Result<Outcome<A>, AllocError>
        ensures { IfOk result (λ o. o ≡ outcome_at self.now) }
    {
        let mut replies = Vec::with_capacity(alloc, self.parties.len())?;
        for party in self.parties.as_slice() {
            let copied = Vec::from_slice(alloc, party.replies())?;
            replies.push_reserved(Sequence::of(copied));
        }
        let left = self.list(alloc)?;
        Ok(Outcome { replies, left })
    }

    /// The list as it stands, front first, with the items that their push has not yet written.
    ///
    /// # Errors
    ///
    /// Where there is no memory.
    pub fn list(&self, alloc: A) -> Result<Vec<u64, A>, AllocError>
        ensures { IfOk result (λ list. list.items ≡ left_of self.now.kind self.now.world) }
    {
        let run = self.run.fork(alloc)?;
        let ended = run.end(alloc)?;
        Ok(ended.left)
    }
}

// Whether the parties are as far as the others, with the same replies.
fn are_as_far<A: Allocator>(parties: &[PartyProgress<A>], others: &[PartyProgress<A>]) -> bool
    ensures { result ≡ true → parties.now ≡ others.now }
{
    if parties.len() != others.len() {
        return false;
    }
    for (index, progress) in parties.iter().enumerate() {
        if !progress.is_same(&others[index]) {
            return false;
        }
    }
    true
}

// So many parties that have begun no call.
fn none_begun<A: Allocator + Copy>(
    alloc: A,
    count: usize,
) -> Result<Vec<PartyProgress<A>, A>, AllocError>
    ensures { IfOk result (λ parties. parties.items ≡ replicate count no_progress) }
{
    let mut parties = Vec::with_capacity(alloc, count)?;
    for _ in 0..count {
        parties.push_reserved(PartyProgress::new(alloc));
    }
    Ok(parties)
}

// Party 0 makes these calls, alone, one after another, each to its end. Whether each came to one.
fn make_all<A: Allocator + Copy>(
    alloc: A,
    run: &mut MachineRun<u64, A>,
    calls: &[Call<u64>],
) -> Result<bool, AllocError>
    requires comes { IsSomeMachineRun run.old }
    requires rests { IsPrepared run.old.machine.kind (world_of run.old.machine) [] (world_of run.old.machine) }
    ensures comes { IsSomeMachineRun run.new }
    ensures kind { run.new.machine.kind ≡ run.old.machine.kind }
    ensures made { IfOk result (λ made. made ≡ true → IsPrepared run.old.machine.kind (world_of run.old.machine) calls.now (world_of run.new.machine)) }
{
    for call in calls {
        if !make_alone(alloc, run, *call)? {
            return Ok(false);
        }
    }
    Ok(true)
}

// Party 0 makes a call, alone, to its end. Whether it came to one.
fn make_alone<A: Allocator + Copy>(
    alloc: A,
    run: &mut MachineRun<u64, A>,
    call: Call<u64>,
) -> Result<bool, AllocError>
    requires { IsSomeMachineRun run.old }
    ensures comes { IsSomeMachineRun run.new }
    ensures kind { run.new.machine.kind ≡ run.old.machine.kind }
    ensures made { IfOk result (λ made. made ≡ true → IsPrepared run.old.machine.kind (world_of run.old.machine) (call ∷ []) (world_of run.new.machine)) }
{
    let Told::Ran(_, _) = handle(alloc, run, Event::Begin(0, call))? else {
        return Ok(false);
    };
    for _ in 0..STEPS_ALONE {
        if !run.is_in_call(0) {
            return Ok(true);
        }
        handle(alloc, run, Event::Step(0, true))?;
    }
    Ok(!run.is_in_call(0))
}

// Handles an event, whose request for a block is met if it is granted, and tells of it.
fn handle<A: Allocator + Copy>(
    alloc: A,
    run: &mut MachineRun<u64, A>,
    event: Event<u64>,
) -> Result<Told<u64>, AllocError>
    requires { IsSomeMachineRun run.old }
    ensures comes { IsSomeMachineRun run.new }
    ensures kind { run.new.machine.kind ≡ run.old.machine.kind }
    ensures told { IfOk result (λ told. told ≡ (event_of run.old.machine.kind true (world_of run.old.machine) event).1) }
    ensures world { OnOk result (world_of run.new.machine ≡ (event_of run.old.machine.kind true (world_of run.old.machine) event).0) }
{
    run.make_room()?;
    let Handled { told, is_met } = run.handle_met(alloc, event);
    if !is_met {
        return Err(AllocError);
    }
    Ok(told)
}
