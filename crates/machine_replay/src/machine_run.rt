//! A run of the machine, one event after another.
ghost use Rattle.std.specs.Prelude.{◌≡◌, ◌+◌, ◌≤◌, [], Bool, None, true, false, is_some, IfOk, IsErr, OnOk, slice_index_or, vec_len, vec_capacity};
ghost use Rattle.machine_replay.specs.MachineRuns.{CanGoOn, Continues, IsMachineRun, IsSomeMachineRun, KeepsRun, Leaves, TellsCall};
ghost use Rattle.machine_steps.specs.Left.{left_of};
ghost use Rattle.machine_memory.specs.Room.{HasRoomFor, KeepsRoom};
ghost use Rattle.machine_steps.specs.Machine.{event_of, world_of};
ghost use Rattle.machine_steps.specs.World.{call_at};
ghost use Rattle.machine_replay.specs.Replays.{CanReplay, is_too_large};
ghost use Rattle.machine_memory.specs.declared.types.Event.TheVariants.{Step};
ghost use Rattle.machine_memory.specs.declared.types.Told.TheVariants.{Skipped};

mod copies;

use crate::left::left;
use crate::peaks;
use crate::run::too_large;
use machine_memory::types::{Event, Handled, Peak, Told};
use machine_steps::machine::Machine;
use queue_steps::steps::Kind;
use std::alloc::{AllocError, Allocator, Global};

/// A run of the machine so far: the machine, the blocks that it held at most, and how many events it handled.
#[derive(Drop)]
pub struct MachineRun<T, A: Allocator> {
    machine: Machine<T, A>,
    peak: Peak,
    handled: usize,
}

/// What a run leaves.
#[derive(Debug, Drop)]
pub struct RunEnd<T, A: Allocator = Global> {
    /// The list at the end, front first, with the items that their push has not yet written.
    pub left: Vec<T, A>,
    /// The blocks that the run held at most.
    pub peak: Peak,
}

impl<T: Drop, A: Allocator + Copy> MachineRun<T, A> {
    /// A run without an event yet, from the empty open queue, with room for the numbers of the blocks of so many events.
    ///
    /// # Errors
    ///
    /// Where there is no memory. A capacity that no queue may have is answered so without a request.
    pub fn new(
        alloc: A,
        kind: Kind,
        parties: usize,
        events: usize,
    ) -> Result<MachineRun<T, A>, AllocError>
        requires { CanReplay kind }
        ensures opens { IfOk result (λ run. IsMachineRun kind parties [] [] run) }
        ensures room { IfOk result (λ run. HasRoomFor run.machine.memory events × (run.handled ≡ 0)) }
        ensures limited { is_too_large kind ≡ true → IsErr result }
    {
        if too_large(kind) {
            return Err(AllocError);
        }
        Ok(MachineRun {
            machine: Machine::new(alloc, kind, parties, events)?,
            peak: peaks::opening(),
            handled: 0,
        })
    }

    /// Makes room for what one event more may need.
    ///
    /// # Errors
    ///
    /// Where there is no memory, or 2^64 - 1 events were handled.
    pub fn make_room(&mut self) -> Result<(), AllocError>
        ensures stays { KeepsRun self.old self.new }
        ensures kind { self.new.machine.kind ≡ self.old.machine.kind }
        ensures world { world_of self.new.machine ≡ world_of self.old.machine }
        ensures room { OnOk result (CanGoOn self.new) }
    {
        if self.handled == usize::MAX {
            return Err(AllocError);
        }
        self.machine.memory.blocks.reserve(1)
    }

    /// Runs one event, and tells of it. An event that does not fit is skipped. Room for it is made before.
    pub fn handle(&mut self, alloc: A, event: Event<T>) -> Told<T>
        requires comes { IsSomeMachineRun self.old }
        requires room { CanGoOn self.old }
        ensures goes_on { Continues self.old event result self.new }
        ensures room { KeepsRoom self.old.machine.memory self.new.machine.memory }
        ensures handled { self.new.handled ≡ self.old.handled + 1 }
    {
        self.handle_met(alloc, event).told
    }

    /// Runs one event, as `handle` does, and tells beside it whether the allocator had what the event asked for.
    pub fn handle_met(&mut self, alloc: A, event: Event<T>) -> Handled<T>
        requires comes { IsSomeMachineRun self.old }
        requires room { CanGoOn self.old }
        ensures goes_on { Continues self.old event result.told self.new }
        ensures room { KeepsRoom self.old.machine.memory self.new.machine.memory }
        ensures handled { self.new.handled ≡ self.old.handled + 1 }
        ensures kind { self.new.machine.kind ≡ self.old.machine.kind }
        ensures world { result.is_met ≡ true → world_of self.new.machine ≡ (event_of self.old.machine.kind true (world_of self.old.machine) event).0 }
        ensures told { result.is_met ≡ true → result.told ≡ (event_of self.old.machine.kind true (world_of self.old.machine) event).1 }
    {
        let before = peaks::numbers(&self.machine);
        let handled = self.machine.handle_met(alloc, event);
        self.peak = peaks::after(&self.machine, before, self.peak);
        self.handled += 1;
        handled
    }

    /// Whether the party is in a call. Where it is in none, its step would be skipped, and change nothing.
    pub fn is_in_call(&self, party: usize) -> bool
        ensures exact { TellsCall self.now party result }
        ensures skips { result ≡ false → (granted : Bool) → Continues self.now (Step party granted) Skipped self.now }
        ensures world { result ≡ is_some (call_at (world_of self.now.machine) party) }
    {
        is_calling(&self.machine.calls, party)
    }

    /// Ends the run. `room` is an empty list with room for what is left.
    pub(crate) fn end_in(self, room: Vec<T, A>) -> RunEnd<T, A>
        requires comes { IsSomeMachineRun self }
        requires empty { vec_len room ≡ 0 }
        requires room { self.handled ≤ vec_capacity room }
        ensures leaves { Leaves self result }
        ensures left { result.left.items ≡ left_of self.machine.kind (world_of self.machine) }
    {
        let MachineRun {
            machine,
            peak,
            handled: _,
        } = self;
        RunEnd {
            left: left(machine, room),
            peak,
        }
    }

    /// Ends the run, and gives what it leaves.
    ///
    /// # Errors
    ///
    /// Where there is no memory for what is left.
    pub fn end(self, alloc: A) -> Result<RunEnd<T, A>, AllocError>
        requires { IsSomeMachineRun self }
        ensures leaves { IfOk result (λ ended. Leaves self ended) }
        ensures left { IfOk result (λ ended. ended.left.items ≡ left_of self.machine.kind (world_of self.machine)) }
    {
        let room = Vec::with_capacity(alloc, self.handled)?;
        Ok(self.end_in(room))
    }
}

// Whether the party has a call among these, which are those of the parties in their order.
fn is_calling<C>(calls: &[Option<C>], party: usize) -> bool
    ensures { result ≡ is_some (slice_index_or calls.now party None) }
{
    party < calls.len() && calls[party].is_some()
}
