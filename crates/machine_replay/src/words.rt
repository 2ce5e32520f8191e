//! The words of a machine after a list of events.
ghost use Rattle.std.specs.Prelude.{◌≡◌, true, IfOk, IsErr};
ghost use Rattle.machine_steps.specs.Left.{opening_world};
ghost use Rattle.machine_memory.specs.Room.{HasCount, HasRoom, KeepsRoom};
ghost use Rattle.machine_steps.specs.Machine.{CanHandle, Passes, PassesAll, world_of};
ghost use Rattle.machine_replay.specs.Replays.{CanReplay, is_too_large};
ghost use Rattle.machine_replay.specs.WordsOf.{AreWordsAfter};

use crate::run::too_large;
use machine_memory::shared_memory::SharedMemory;
use machine_memory::types::Event;
use machine_steps::machine::Machine;
use queue_steps::steps::Kind;
use std::alloc::{AllocError, Allocator, Global};

/// The words of a queue of one slot, or of a ring: what each does not have is 0, or empty.
#[derive(Debug, Drop)]
pub struct QueueWords<A: Allocator = Global> {
    /// The word of a queue of one slot.
    pub lock: u64,
    /// How far the poppers of a ring are.
    pub head: u64,
    /// How far the pushers of a ring are, and whether it is closed.
    pub tail: u64,
    /// The stamp of each slot of a ring.
    pub stamps: Vec<u64, A>,
}

/// One event, of which nothing is told.
fn pass<T: Drop, A: Allocator + Copy>(alloc: A, machine: &mut Machine<T, A>, event: Event<T>)
    requires can { CanHandle machine.old.kind (world_of machine.old) event }
    requires room { HasRoom machine.old.memory }
    requires counted { HasCount machine.old.memory }
    ensures kind { machine.new.kind ≡ machine.old.kind }
    ensures world { Passes machine.old.kind (world_of machine.old) event (world_of machine.new) }
    ensures room { KeepsRoom machine.old.memory machine.new.memory }
    ensures counted { HasCount machine.new.memory }
{
    machine.handle(alloc, event);
}

/// The machine after these events, which run from the empty open queue.
///
/// # Errors
///
/// Where there is no memory, as of a replay.
pub fn machine_after<T: Drop, A: Allocator + Copy>(
    alloc: A,
    kind: Kind,
    parties: usize,
    events: Vec<Event<T>, A>,
) -> Result<Machine<T, A>, AllocError>
    requires { CanReplay kind }
    ensures plays { IfOk result (λ m. PassesAll kind (opening_world kind parties) events.items (world_of m)) }
    ensures limited { is_too_large kind ≡ true → IsErr result }
{
    if too_large(kind) {
        return Err(AllocError);
    }
    let mut machine = Machine::new(alloc, kind, parties, events.len())?;
    for event in events {
        pass(alloc, &mut machine, event);
    }
    Ok(machine)
}

/// The words of the queue after these events, which run from the empty open queue.
///
/// # Errors
///
/// Where there is no memory, as of a replay.
pub fn words_after<T: Drop, A: Allocator + Copy>(
    alloc: A,
    kind: Kind,
    parties: usize,
    events: Vec<Event<T>, A>,
) -> Result<QueueWords<A>, AllocError>
    requires { CanReplay kind }
    ensures words { IfOk result (λ w. AreWordsAfter kind parties events.items w) }
    ensures limited { is_too_large kind ≡ true → IsErr result }
{
    let Machine {
        kind: _,
        memory,
        calls: _,
    } = machine_after(alloc, kind, parties, events)?;
    let SharedMemory {
        lock,
        head,
        tail,
        stamps,
        slots: _,
        head_block: _,
        tail_block: _,
        blocks: _,
        alive: _,
    } = memory;
    Ok(QueueWords {
        lock,
        head,
        tail,
        stamps,
    })
}
