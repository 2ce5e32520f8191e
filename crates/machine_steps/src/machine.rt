//! The machine: what the parties of a queue share, and the call that each is in.
ghost use Rattle.std.specs.Prelude.{◌≡◌, ◌<◌, Bool, IfOk, vec_len, true, false};
ghost use Rattle.machine_memory.specs.Room.{HasRoom, HasRoomFor, KeepsRoom, HasSameRoom, HasCount};
ghost use Rattle.machine_memory.specs.SharedMemory.{shared_of};
ghost use Rattle.machine_memory.specs.declared.types.Event.TheVariants.{Begin};
ghost use Rattle.machine_steps.specs.Left.{opening_world};
ghost use Rattle.machine_steps.specs.Machine.{world_of, event_of, CanHandle, Handles};
ghost use Rattle.machine_steps.specs.Steps.{running_after, reply_after, CanReply, CanStep, CanStart, step_of, spare_in};
ghost use Rattle.machine_steps.specs.World.{stepped};

use machine_memory::calls::Running;
use machine_memory::effects::effect;
use machine_memory::feeding::feed_calls;
use machine_memory::same::{Same, all_same};
use machine_memory::shared_memory::{SharedMemory, vacant};
use machine_memory::types::{Event, Handled, Told};
use queue_steps::model::{Call, Reply};
use queue_steps::steps::{Answer, Kind, Next, next, start};
use std::alloc::{AllocError, Allocator};
use std::hash::{Hash, Hasher};

/// A queue and its parties.
#[derive(Drop)]
pub struct Machine<T, A: Allocator> {
    /// Which queue.
    pub kind: Kind,
    /// What all parties share.
    pub memory: SharedMemory<T, A>,
    /// The call that each party is in.
    pub calls: Vec<Option<Running<T>>, A>,
}

impl<T: Drop, A: Allocator + Copy> Machine<T, A> {
    /// An empty open queue, and so many parties, all between calls, with room for the numbers of the blocks of so many events.
    pub fn new(
        alloc: A,
        kind: Kind,
        parties: usize,
        events: usize,
    ) -> Result<Machine<T, A>, AllocError>
        ensures kind { IfOk result (λ m. m.kind ≡ kind) }
        ensures world { IfOk result (λ m. world_of m ≡ opening_world kind parties) }
        ensures room { IfOk result (λ m. HasRoomFor m.memory events) }
        ensures counted { IfOk result (λ m. HasCount m.memory) }
    {
        Ok(Machine {
            kind,
            memory: SharedMemory::new(alloc, kind, events)?,
            calls: vacant(alloc, parties)?,
        })
    }
}

impl<T: Copy, A: Allocator + Copy> Machine<T, A> {
    /// A copy, with room for one block more.
    pub fn fork(&self, alloc: A) -> Result<Self, AllocError>
        ensures kind { IfOk result (λ m. m.kind ≡ self.now.kind) }
        ensures world { IfOk result (λ m. world_of m ≡ world_of self.now) }
        ensures alive { IfOk result (λ m. m.memory.alive ≡ self.now.memory.alive) }
        ensures room { IfOk result (λ m. HasRoom m.memory) }
    {
        Ok(Machine {
            kind: self.kind,
            memory: self.memory.fork(alloc)?,
            calls: Vec::from_slice(alloc, &self.calls)?,
        })
    }
}

impl<T: Same, A: Allocator> Machine<T, A> {
    /// Whether the two are of one kind, share the same, and have the same calls. A no claims nothing.
    pub fn is_same(&self, other: &Self) -> bool
        ensures kind { result ≡ true → self.now.kind ≡ other.now.kind }
        ensures world { result ≡ true → world_of self.now ≡ world_of other.now }
    {
        self.kind == other.kind
            && self.memory.is_same(&other.memory)
            && all_same(&self.calls, &other.calls)
    }
}

impl<T: Hash, A: Allocator> Machine<T, A> {
    /// Feeds the hasher with what is shared and with what each call does next. Machines that are the same feed it alike.
    pub fn feed<H: Hasher>(&self, state: &mut H) {
        match self.kind {
            Kind::Single => state.write_u8(0),
            Kind::Bounded(cap) => state.write_usize(cap),
            Kind::Unbounded => state.write_u8(1),
        }
        self.memory.feed(state);
        feed_calls(&self.calls, state);
    }
}

impl<T: Drop, A: Allocator> Machine<T, A> {
    /// One event. A block that it asks for is asked of the allocator, unless the event refuses it.
    pub fn handle(&mut self, alloc: A, event: Event<T>) -> Told<T>
        requires can { CanHandle self.old.kind (world_of self.old) event }
        requires room { HasRoom self.old.memory }
        requires counted { HasCount self.old.memory }
        ensures kind { self.new.kind ≡ self.old.kind }
        ensures handles { Handles self.old.kind (world_of self.old) event (world_of self.new) result }
        ensures room { KeepsRoom self.old.memory self.new.memory }
        ensures counted { HasCount self.new.memory }
    {
        self.handle_met(alloc, event).told
    }

    /// One event, as `handle` handles it. Beside what is told of it stands whether the allocator had what it asked for.
    pub fn handle_met(&mut self, alloc: A, event: Event<T>) -> Handled<T>
        requires can { CanHandle self.old.kind (world_of self.old) event }
        requires room { HasRoom self.old.memory }
        requires counted { HasCount self.old.memory }
        ensures kind { self.new.kind ≡ self.old.kind }
        ensures handles { Handles self.old.kind (world_of self.old) event (world_of self.new) result.told }
        ensures room { KeepsRoom self.old.memory self.new.memory }
        ensures counted { HasCount self.new.memory }
        ensures met_world { result.is_met ≡ true → world_of self.new ≡ (event_of self.old.kind true (world_of self.old) event).0 }
        ensures met_told { result.is_met ≡ true → result.told ≡ (event_of self.old.kind true (world_of self.old) event).1 }
    {
        match event {
            Event::Begin(party, call) => met(self.begin(party, call)),
            Event::Step(party, granted) => {
                if party >= self.calls.len() {
                    return met(Told::Skipped);
                }
                match self.calls[party].take() {
                    None => met(Told::Skipped),
                    Some(running) => {
                        let (told, ok) = self.step(alloc, granted, party, running);
                        Handled {
                            told,
                            is_met: is_met(granted, ok),
                        }
                    }
                }
            }
        }
    }

    /// A party begins a call.
    fn begin(&mut self, party: usize, call: Call<T>) -> Told<T>
        requires can { CanStart self.old.kind call }
        requires counted { HasCount self.old.memory }
        ensures kind { self.new.kind ≡ self.old.kind }
        ensures world { world_of self.new ≡ (event_of self.old.kind false (world_of self.old) (Begin party call)).0 }
        ensures told { result ≡ (event_of self.old.kind false (world_of self.old) (Begin party call)).1 }
        ensures room { HasSameRoom self.old.memory self.new.memory }
        ensures counted { HasCount self.new.memory }
    {
        if party >= self.calls.len() || self.calls[party].is_some() {
            return Told::Skipped;
        }
        let (call, carried) = call.split();
        let first = next(self.kind, start(self.kind, call), Answer::Start);
        let (running, reply) = advance(first, carried);
        if let Some(running) = running {
            self.calls[party] = Some(running);
        }
        Told::Ran(None, reply)
    }

    /// One step of a party's call, which stands no longer among the calls. Beside what is told of it stands whether a block that it asked for was granted.
    fn step(
        &mut self,
        alloc: A,
        granted: bool,
        party: usize,
        running: Running<T>,
    ) -> (Told<T>, bool)
        requires party { party < vec_len self.old.calls }
        requires can { (ok : Bool) → CanStep self.old.kind ok (shared_of self.old.memory) running }
        requires room { HasRoom self.old.memory }
        requires counted { HasCount self.old.memory }
        ensures refused { granted ≡ false → result.1 ≡ false }
        ensures kind { self.new.kind ≡ self.old.kind }
        ensures world { world_of self.new ≡ (stepped (world_of self.old) party (step_of self.old.kind result.1 (shared_of self.old.memory) running)).0 }
        ensures told { result.0 ≡ (stepped (world_of self.old) party (step_of self.old.kind result.1 (shared_of self.old.memory) running)).1 }
        ensures room { KeepsRoom self.old.memory self.new.memory }
        ensures counted { HasCount self.new.memory }
    {
        let Running {
            local,
            touch,
            op,
            carried,
        } = running;
        let carried = self.memory.touch(touch, op, carried);
        let (answer, ok) = self.memory.perform(alloc, op, granted);
        let effect = effect(self.kind, local, answer);
        let next = next(self.kind, local, answer);
        self.memory.give_up(spare(next));
        let (running, reply) = advance(next, carried);
        self.calls[party] = running;
        (Told::Ran(effect, reply), ok)
    }
}

/// Whether a step has what it asked for. A step that asks for nothing is granted what its event grants.
fn is_met(granted: bool, ok: bool) -> bool
    ensures { result ≡ true → granted ≡ true → ok ≡ true }
{
    ok || !granted
}

/// What is told of an event that asked for nothing.
fn met<T>(told: Told<T>) -> Handled<T>
    ensures { result ≡ record { told = told; is_met = true } }
{
    Handled { told, is_met: true }
}

/// The call before its next step, or the reply that ends it.
fn advance<T>(next: Next<usize>, carried: Option<T>) -> (Option<Running<T>>, Option<Reply<T>>)
    requires { CanReply next carried }
    ensures { result ≡ (running_after next carried, reply_after next carried) }
{
    match next {
        Next::Step(local, touch, op) => {
            let running = Running {
                local,
                touch,
                op,
                carried,
            };
            (Some(running), None)
        }
        Next::Reply(kind, _) => (None, Some(Reply::fill(kind, carried))),
    }
}

/// The block that a call gives up where it replies.
fn spare(next: Next<usize>) -> Option<usize>
    ensures { result ≡ spare_in next }
{
    match next {
        Next::Step(_, _, _) => None,
        Next::Reply(_, spare) => spare,
    }
}
