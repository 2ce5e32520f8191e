//! Copies of runs, and what tells runs from each other.
ghost use Rattle.std.specs.Prelude.{◌≡◌, Bool, IfOk, None, length, slice_index_or, true, false};
ghost use Rattle.machine_steps.specs.Machine.{event_of, world_of};
ghost use Rattle.machine_replay.specs.MachineRuns.{CanGoOn, KeepsRun};
ghost use Rattle.machine_replay.specs.Played.{asks, local_in};
ghost use Rattle.machine_steps.specs.World.{call_at};
ghost use Rattle.machine_memory.specs.declared.types.Event.TheVariants.{Step};

use super::MachineRun;
use machine_memory::calls::Running;
use machine_memory::same::Same;
use queue_steps::steps::{Kind, Local, Op};
use std::alloc::{AllocError, Allocator};
use std::hash::{FoldHasher, Hash, Hasher};

impl<T: Copy, A: Allocator + Copy> MachineRun<T, A> {
    /// A copy of the run, with room for what one event more may need.
    ///
    /// # Errors
    ///
    /// Where there is no memory, or 2^64 - 1 events were handled.
    pub fn fork(&self, alloc: A) -> Result<MachineRun<T, A>, AllocError>
        ensures same { IfOk result (λ run. KeepsRun self.now run) }
        ensures kind { IfOk result (λ run. run.machine.kind ≡ self.now.machine.kind) }
        ensures world { IfOk result (λ run. world_of run.machine ≡ world_of self.now.machine) }
        ensures room { IfOk result (λ run. CanGoOn run) }
    {
        if self.handled == usize::MAX {
            return Err(AllocError);
        }
        Ok(MachineRun {
            machine: self.machine.fork(alloc)?,
            peak: self.peak,
            handled: self.handled,
        })
    }
}

impl<T: Same, A: Allocator> MachineRun<T, A> {
    /// Whether the machines of the two runs are the same. A no claims nothing, and the peaks are not compared.
    pub fn is_same(&self, other: &MachineRun<T, A>) -> bool
        ensures kind { result ≡ true → self.now.machine.kind ≡ other.now.machine.kind }
        ensures world { result ≡ true → world_of self.now.machine ≡ world_of other.now.machine }
    {
        self.machine.is_same(&other.machine)
    }
}

impl<T: Hash, A: Allocator> MachineRun<T, A> {
    /// A hash of what `is_same` compares, but for where calls stand. Machines that are the same have the same.
    pub fn fingerprint(&self) -> u64 {
        let mut state = FoldHasher::default();
        self.machine.feed(&mut state);
        state.finish()
    }
}

impl<T, A: Allocator> MachineRun<T, A> {
    /// Whether the party's next step asks for a block. Where it does not, the allocator has no say in it.
    pub fn asks(&self, party: usize) -> bool
        ensures plain { result ≡ false → (granted : Bool) → event_of self.now.machine.kind true (world_of self.now.machine) (Step party granted) ≡ event_of self.now.machine.kind true (world_of self.now.machine) (Step party true) }
    {
        is_asking(&self.machine.calls, party)
    }

    /// Where the party's call stands, if it is in one.
    pub fn local(&self, party: usize) -> Option<Local<usize>>
        ensures { result ≡ local_in (call_at (world_of self.now.machine) party) }
    {
        local_of(&self.machine.calls, party)
    }

    /// How many parties share the queue.
    pub fn parties(&self) -> usize
        ensures { result ≡ length (world_of self.now.machine).calls }
    {
        self.machine.calls.len()
    }

    /// Which queue it is.
    pub fn kind(&self) -> Kind
        ensures { result ≡ self.now.machine.kind }
    {
        self.machine.kind
    }
}

/// Where the party's call stands, of these calls.
fn local_of<T>(calls: &[Option<Running<T>>], party: usize) -> Option<Local<usize>>
    ensures { result ≡ local_in (slice_index_or calls.now party None) }
{
    if party >= calls.len() {
        return None;
    }
    match &calls[party] {
        Some(running) => Some(running.local),
        None => None,
    }
}

/// Whether the next step of the party's call, of these calls, asks for a block.
fn is_asking<T>(calls: &[Option<Running<T>>], party: usize) -> bool
    ensures { result ≡ asks (slice_index_or calls.now party None) }
{
    if party >= calls.len() {
        return false;
    }
    match &calls[party] {
        Some(running) => matches!(running.op, Op::Ask),
        None => false,
    }
}
