//! How many blocks a run held at most.
ghost use Rattle.std.specs.Prelude.{◌≡◌, ◌<◌, ◌^◌, nat_lt, if◌then◌else◌, length};
ghost use Rattle.queue_steps.specs.Words.{position_of};
ghost use Rattle.queue_steps.specs.ChainWords.{items_before};
ghost use Rattle.machine_memory.specs.SharedMemory.{shared_of};
ghost use Rattle.machine_memory.specs.Room.{HasCount};
ghost use Rattle.machine_steps.specs.Machine.{world_of};
ghost use Rattle.machine_replay.specs.Peaks.{held, bound_of, opening_peak, peaked};
ghost use Rattle.machine_memory.specs.Present.{present};

use machine_memory::shared_memory::SharedMemory;
use machine_memory::types::Peak;
use machine_steps::machine::Machine;
use queue_steps::sizes::{BLOCK_POSITIONS, BLOCK_SLOTS};
use queue_steps::words::position_of;
use std::alloc::Allocator;

/// How many of these are there.
fn present<X, A: Allocator>(places: &Vec<Option<X>, A>) -> usize
    ensures count { result ≡ present places.now.items }
    ensures few { result < 2 ^ 63 }
{
    let mut count = 0;
    for place in 0..places.len() {
        if places[place].is_some() {
            count += 1;
        }
    }
    count
}

/// How many items stand before a word's position.
fn items(word: u64) -> u64
    ensures { result ≡ items_before (position_of word) }
{
    let position = position_of(word);
    position / BLOCK_POSITIONS * BLOCK_SLOTS + position % BLOCK_POSITIONS
}

/// How many items a chain holds.
fn held<T, A: Allocator>(memory: &SharedMemory<T, A>) -> u64
    ensures { result ≡ held (shared_of memory.now) }
{
    items(memory.tail).saturating_sub(items(memory.head))
}

/// The bound on the blocks of a chain.
fn bound<T: Drop, A: Allocator>(machine: &Machine<T, A>) -> usize
    ensures { result ≡ bound_of (world_of machine.now) }
{
    let filled = held(&machine.memory) / BLOCK_SLOTS;
    filled as usize + 2 + present(&machine.calls)
}

/// Before the first event there is no block.
pub(crate) fn opening() -> Peak
    ensures { result ≡ opening_peak }
{
    Peak {
        blocks: 0,
        bound: 2,
    }
}

/// The greatest number of blocks so far, and the bound at the first moment that had so many.
fn peak<T: Drop, A: Allocator>(machine: &Machine<T, A>, peak: Peak) -> Peak
    requires { HasCount machine.now.memory }
    ensures { result ≡ peaked (world_of machine.now) peak }
{
    let blocks = machine.memory.alive;
    if peak.blocks < blocks {
        Peak {
            blocks,
            bound: bound(machine),
        }
    } else {
        peak
    }
}

/// How many numbers of blocks were given out.
pub(crate) fn numbers<T: Drop, A: Allocator>(machine: &Machine<T, A>) -> usize
    ensures { result ≡ length machine.now.memory.blocks.items }
{
    machine.memory.blocks.len()
}

/// The same after an event before which so many numbers of blocks were given out: where none was since, there are no more blocks than before.
pub(crate) fn after<T: Drop, A: Allocator>(
    machine: &Machine<T, A>,
    before: usize,
    highest: Peak,
) -> Peak
    requires { HasCount machine.now.memory }
    ensures { result ≡ (if nat_lt before (length machine.now.memory.blocks.items) then peaked (world_of machine.now) highest else highest) }
{
    if before < numbers(machine) {
        peak(machine, highest)
    } else {
        highest
    }
}
