//! The list that a machine holds at the end of a run.
ghost use Rattle.std.specs.Prelude.{◌≡◌, ◌++◌, ◌+◌, ◌-◌, ◌≤◌, ◌<◌, [], None, length, vec_len, vec_capacity, slice_index_or, slice_set};
ghost use Rattle.std.specs.Option.{option_to_list};
ghost use Rattle.queue_steps.specs.Words.{position_of};
ghost use Rattle.machine_memory.specs.SharedMemory.{shared_of};
ghost use Rattle.machine_steps.specs.Left.{written, all_written, gathered, listed_in, HasSlot, left_of};
ghost use Rattle.machine_steps.specs.Machine.{world_of};

use crate::chain_left;
use machine_memory::calls::Running;
use machine_memory::shared_memory::SharedMemory;
use machine_steps::machine::Machine;
use queue_steps::steps::{Kind, PUSHED, Touch};
use queue_steps::words::position_of;
use std::alloc::Allocator;

/// The slots once a call that is about to write has written.
fn write<T: Drop, A: Allocator>(touch: Touch, carried: Option<T>, slots: &mut Vec<Option<T>, A>)
    ensures { slots.new.items ≡ written touch carried slots.old.items }
{
    match touch {
        Touch::Put(slot) | Touch::Swap(slot) => {
            if slot < slots.len() {
                slots[slot] = carried;
            }
        }
        _ => {}
    }
}

/// The slots once every call that is about to write has written.
fn settle<T: Drop, A: Allocator>(
    calls: Vec<Option<Running<T>>, A>,
    mut slots: Vec<Option<T>, A>,
) -> Vec<Option<T>, A>
    ensures { result.items ≡ all_written calls.items slots.items }
{
    for call in calls {
        if let Some(Running { touch, carried, .. }) = call {
            write(touch, carried, &mut slots);
        }
    }
    slots
}

/// Takes what is in a slot to the end of the list.
fn gather_one<T: Drop, A: Allocator>(
    slots: &mut Vec<Option<T>, A>,
    slot: usize,
    left: &mut Vec<T, A>,
)
    requires { vec_len left.old + length (option_to_list (slice_index_or slots.old.items slot None)) ≤ vec_capacity left.old }
    ensures slots { slots.new.items ≡ slice_set slots.old.items slot None }
    ensures left { left.new.items ≡ left.old.items ++ option_to_list (slice_index_or slots.old.items slot None) }
    ensures room { vec_capacity left.new ≡ vec_capacity left.old }
{
    if slot < slots.len() {
        if let Some(item) = slots[slot].take() {
            left.push_reserved(item);
        }
    }
}

/// Takes the items of the positions from `head` on, before `end`, to the end of the list.
fn gather<T: Drop, A: Allocator>(
    cap: usize,
    head: u64,
    end: u64,
    mut slots: Vec<Option<T>, A>,
    mut left: Vec<T, A>,
) -> Vec<T, A>
    requires some { 0 < cap }
    requires empty { vec_len left ≡ 0 }
    requires room { length (gathered cap head (end - head) slots.items) ≤ vec_capacity left }
    ensures { result.items ≡ gathered cap head (end - head) slots.items }
{
    for position in head..end {
        gather_one(&mut slots, (position % cap as u64) as usize, &mut left);
    }
    left
}

/// The list that the slots hold.
fn list<T: Drop, A: Allocator>(
    kind: Kind,
    lock: u64,
    head: u64,
    tail: u64,
    mut slots: Vec<Option<T>, A>,
    mut left: Vec<T, A>,
) -> Vec<T, A>
    requires some { HasSlot kind }
    requires empty { vec_len left ≡ 0 }
    requires room { length (listed_in kind lock head tail slots.items) ≤ vec_capacity left }
    ensures { result.items ≡ listed_in kind lock head tail slots.items }
{
    match kind {
        Kind::Single => {
            if lock & PUSHED != 0 {
                gather_one(&mut slots, 0, &mut left);
            }
            left
        }
        Kind::Bounded(cap) => gather(cap, head, position_of(tail), slots, left),
        Kind::Unbounded => left,
    }
}

/// The list that the machine holds, with the items that are not yet written. `left` is an empty list with room for it.
pub(crate) fn left<T: Drop, A: Allocator>(machine: Machine<T, A>, left: Vec<T, A>) -> Vec<T, A>
    requires some { HasSlot machine.kind }
    requires empty { vec_len left ≡ 0 }
    requires room { length (left_of machine.kind (world_of machine)) ≤ vec_capacity left }
    ensures { result.items ≡ left_of machine.kind (world_of machine) }
{
    let Machine {
        kind,
        memory,
        calls,
    } = machine;
    let SharedMemory {
        lock,
        head,
        tail,
        stamps: _,
        slots,
        head_block,
        tail_block: _,
        blocks,
        alive: _,
    } = memory;
    match kind {
        Kind::Unbounded => chain_left::left(calls, head_block, blocks, left),
        _ => list(kind, lock, head, tail, settle(calls, slots), left),
    }
}
