//! The check that a list of waits has every wait of a program.
ghost use Rattle.std.specs.Prelude.{◌≡◌, ◌≢◌, ◌==◌, ◌<◌, ℕ, false, true, map, Contains, IfOk};
ghost use Rattle.std.specs.List.{All};
ghost use Rattle.machine_steps.specs.World.{call_at};
ghost use Rattle.machine_replay.specs.Played.{local_in};
ghost use Rattle.machine_replay.specs.Replays.{CanReplay};
ghost use Rattle.machine_explore.specs.Waiting.{GoesRound, HasNoOtherWait, IsSentBack, side_key, wait_key, wait_of};
ghost use Rattle.machine_explore.specs.WaitTables.{HasWaitsAt, HasWaitsOf, WaitsThere, is_half_done_at, key_there, remembered};

use crate::check::{Table, is_closed};
use crate::position::Position;
use crate::program::Program;
use crate::waiting::{Side, Wait, is_first, is_quiet, side_of};
use machine_memory::places::label;
use machine_replay::types::Event;
use queue_steps::sizes::STEPS_ALONE;
use queue_steps::steps::{ChainLocal, Kind, Local, RingLocal, SlotLocal};
use std::alloc::{AllocError, Allocator};

/// Whether each wait of the program is one of these, by its parties, their calls and the labels of their steps, as the table shows. Whoever made the table is not trusted.
///
/// With `refuses` each request for a block may also be refused.
///
/// # Errors
///
/// Where there is no memory, for a block too, or no queue may have the capacity.
pub fn check_waits<A: Allocator + Copy>(
    alloc: A,
    kind: Kind,
    refuses: bool,
    program: &Program<A>,
    table: &Table<A>,
    waits: &[Wait<A>],
) -> Result<bool, AllocError>
    requires { CanReplay kind }
    ensures { IfOk result (λ yes. yes ≡ true → HasNoOtherWait kind refuses program.now.before program.now.parties.items (map wait_of waits.now)) }
{
    if !is_closed(alloc, kind, refuses, program, table)? {
        return Ok(false);
    }
    have_waits(alloc, program, &table.positions, waits)
}

// Whether each wait at one of the positions is one of these.
fn have_waits<A: Allocator + Copy>(
    alloc: A,
    program: &Program<A>,
    positions: &[Position<A>],
    waits: &[Wait<A>],
) -> Result<bool, AllocError>
    ensures { IfOk result (λ yes. yes ≡ true → All (HasWaitsAt program.now.parties.items (map wait_key (map wait_of waits.now))) positions.now) }
{
    for position in positions {
        if !has_waits_at(alloc, program, position, waits)? {
            return Ok(false);
        }
    }
    Ok(true)
}

// Whether each wait at the position is one of these.
fn has_waits_at<A: Allocator + Copy>(
    alloc: A,
    program: &Program<A>,
    position: &Position<A>,
    waits: &[Wait<A>],
) -> Result<bool, AllocError>
    ensures { IfOk result (λ yes. yes ≡ true → HasWaitsAt program.now.parties.items (map wait_key (map wait_of waits.now)) position.now) }
{
    for waiter in 0..program.parties.len() {
        if !has_waits_of(alloc, program, position, waiter, waits)? {
            return Ok(false);
        }
    }
    Ok(true)
}

// Whether each wait of this party at the position is one of these.
fn has_waits_of<A: Allocator + Copy>(
    alloc: A,
    program: &Program<A>,
    position: &Position<A>,
    waiter: usize,
    waits: &[Wait<A>],
) -> Result<bool, AllocError>
    ensures { IfOk result (λ yes. yes ≡ true → HasWaitsOf program.now.parties.items (map wait_key (map wait_of waits.now)) position.now waiter) }
{
    if !may_be_sent_back(alloc, position, waiter)? {
        return Ok(true);
    }
    if !may_go_round(alloc, position, waiter)? {
        return Ok(true);
    }
    for other in 0..program.parties.len() {
        if !has_wait(program, position, waiter, other, waits) {
            return Ok(false);
        }
    }
    Ok(true)
}

// Whether the wait of the one for the other at the position is one of these, if the other alone is half done.
fn has_wait<A: Allocator + Copy>(
    program: &Program<A>,
    position: &Position<A>,
    waiter: usize,
    other: usize,
    waits: &[Wait<A>],
) -> bool
    ensures { result ≡ true → WaitsThere program.now.parties.items position.now waiter other → Contains (map wait_key (map wait_of waits.now)) (key_there program.now.parties.items position.now waiter other) }
{
    if waiter == other {
        return true;
    }
    if !is_alone(position, program.parties.len(), waiter, other) {
        return true;
    }
    is_listed(
        side_of(program, position, waiter),
        side_of(program, position, other),
        waits,
    )
}

// Whether of so many parties, but for the one that waits, the other alone is half done.
fn is_alone<A: Allocator + Copy>(
    position: &Position<A>,
    parties: usize,
    waiter: usize,
    other: usize,
) -> bool
    ensures { result ≡ false → ((r : ℕ) → r < parties → r ≢ waiter → is_half_done_at (local_in (call_at position.now.world r)) ≡ (r == other)) → ⊥ }
{
    for party in 0..parties {
        if !is_as_alone(position, party, waiter, other) {
            return false;
        }
    }
    true
}

// Whether this party waits, or is half done exactly if it is the other.
fn is_as_alone<A: Allocator + Copy>(
    position: &Position<A>,
    party: usize,
    waiter: usize,
    other: usize,
) -> bool
    ensures { result ≡ false → (party ≢ waiter → is_half_done_at (local_in (call_at position.now.world party)) ≡ (party == other)) → ⊥ }
{
    if party == waiter {
        return true;
    }
    is_half_done_at(position.local(party)) == (party == other)
}

// Whether one of the waits has these sides.
fn is_listed<A: Allocator>(waiter: Side, other: Side, waits: &[Wait<A>]) -> bool
    ensures { result ≡ true → Contains (map wait_key (map wait_of waits.now)) (side_key waiter, side_key other) }
{
    for wait in waits {
        if is_between(wait, waiter, other) {
            return true;
        }
    }
    false
}

// Whether the wait has these sides.
fn is_between<A: Allocator>(wait: &Wait<A>, waiter: Side, other: Side) -> bool
    ensures { result ≡ true → wait_key (wait_of wait.now) ≡ (side_key waiter, side_key other) }
{
    is_told_alike(wait.waiter, waiter) && is_told_alike(wait.other, other)
}

/// Whether the two are told alike: the party, its call, and the label of its step.
pub(crate) fn is_told_alike(side: Side, other: Side) -> bool
    ensures { result ≡ true → side_key side ≡ side_key other }
{
    side.party == other.party && side.call == other.call && label(side.local) == label(other.local)
}

// Whether the party may go round. A no is right; a yes claims nothing.
fn may_go_round<A: Allocator + Copy>(
    alloc: A,
    position: &Position<A>,
    party: usize,
) -> Result<bool, AllocError>
    ensures { IfOk result (λ yes. yes ≡ false → GoesRound position.now.kind position.now.world party → ⊥) }
{
    let here = position.local(party);
    let mut later = position.fork(alloc)?;
    for _ in 0..STEPS_ALONE {
        let told = later.take(alloc, party, Event::Step(party, true))?;
        if !is_quiet(told) {
            return Ok(false);
        }
        let there = later.local(party);
        if !stand_apart(here, there) {
            return Ok(true);
        }
    }
    Ok(false)
}

// Whether the party's next step may send it back. A no is right; a yes claims nothing.
fn may_be_sent_back<A: Allocator + Copy>(
    alloc: A,
    position: &Position<A>,
    party: usize,
) -> Result<bool, AllocError>
    ensures { IfOk result (λ yes. yes ≡ false → IsSentBack position.now.kind position.now.world party → ⊥) }
{
    let here = position.local(party);
    let mut later = position.fork(alloc)?;
    later.take(alloc, party, Event::Step(party, true))?;
    let there = later.local(party);
    if is_first(there) {
        return Ok(true);
    }
    if stand_apart(here, there) {
        return Ok(false);
    }
    Ok(true)
}

// Whether two calls stand at different places. A yes is right; a no claims nothing.
fn stand_apart(local: Option<Local<usize>>, other: Option<Local<usize>>) -> bool
    ensures { result ≡ true → local ≢ other }
{
    if label(local) != label(other) {
        return true;
    }
    let (word, block) = remembered(local);
    let (other_word, other_block) = remembered(other);
    word != other_word || block != other_block
}

// The word or the slot that a push or a pop remembers where it may be sent back or walks a block, and the block or the spare.
fn remembered(local: Option<Local<usize>>) -> (u64, Option<usize>)
    ensures { result ≡ remembered local }
{
    match local {
        Some(Local::Slot(local)) => match local {
            SlotLocal::Forcing(word) | SlotLocal::Popping(word) => (word, None),
            _ => (0, None),
        },
        Some(Local::Ring(local)) => match local {
            RingLocal::PushStamp(_, word)
            | RingLocal::Claiming(_, word)
            | RingLocal::PushHead(word)
            | RingLocal::Displacing(word)
            | RingLocal::PopStamp(word)
            | RingLocal::Taking(word)
            | RingLocal::PopTail(word) => (word, None),
            _ => (0, None),
        },
        Some(Local::Chain(local)) => match local {
            ChainLocal::PopBlock(word) => (word, None),
            ChainLocal::PushBlock(_, word, block)
            | ChainLocal::Asking(_, word, block)
            | ChainLocal::PopTail(word, block) => (word, block),
            ChainLocal::Installing(_, word, block)
            | ChainLocal::Claiming(_, word, block, _)
            | ChainLocal::Taking(word, block)
            | ChainLocal::Reading(block, word)
            | ChainLocal::Walking(block, word)
            | ChainLocal::Destroying(block, word) => (word, Some(block)),
            _ => (0, None),
        },
        _ => (0, None),
    }
}

/// Whether a call that stands there has had an effect.
pub(crate) fn is_half_done_at(local: Option<Local<usize>>) -> bool
    ensures { result ≡ is_half_done_at local }
{
    match local {
        Some(Local::Slot(local)) => match local {
            SlotLocal::Pushed | SlotLocal::Forced(_) | SlotLocal::Popped => true,
            _ => false,
        },
        Some(Local::Ring(local)) => match local {
            RingLocal::Filling(_)
            | RingLocal::Arriving(_)
            | RingLocal::Swapping
            | RingLocal::Emptying => true,
            _ => false,
        },
        Some(Local::Chain(local)) => match local {
            ChainLocal::Laying(_, _, _, _)
            | ChainLocal::Opening(_, _, _, _)
            | ChainLocal::Chaining(_, _, _, _)
            | ChainLocal::Writing(_, _)
            | ChainLocal::Following(_, _)
            | ChainLocal::Peeking(_, _, _)
            | ChainLocal::Passing(_, _, _)
            | ChainLocal::Entering(_, _)
            | ChainLocal::Awaiting(_, _)
            | ChainLocal::Reading(_, _)
            | ChainLocal::Walking(_, _)
            | ChainLocal::Destroying(_, _) => true,
            _ => false,
        },
        _ => false,
    }
}
