//! What a replay tells of its calls, as a history that `history_check` reads.
ghost use Rattle.std.specs.Prelude.{◌≡◌, ◌++◌, ℕ, Option, None, if◌then◌else◌, IfOk, OnOk};
ghost use Rattle.machine_replay.specs.Conforms.{Conforms, capacity_of};
ghost use Rattle.machine_replay.specs.Replays.{CanReplay};
ghost use Rattle.machine_memory.specs.declared.types.Told.TheVariants.{Skipped, Ran};
ghost use Rattle.history_check.specs.Legal.{in_steps, IsLegal};
ghost use Rattle.law_recorded.specs.Recorded.{entry, IsRecordOf, first_reply, later_replies, is_skipped, later_skipped, history_of};

use history_check::recorded::Event as Recorded;
use machine_replay::replay;
use machine_replay::types::{Event, Replay};
use queue_steps::model::Reply;
use queue_steps::steps::Kind;
use std::alloc::{AllocError, Allocator};

/// A party's reply, with the number of the event at which it came.
type Answer = (usize, usize, Reply<u64>);

// The reply that came at the event of this number, which is the first of these if one did, and those that came later.
fn next_reply(replies: &[Answer], number: usize) -> (Option<Reply<u64>>, &[Answer])
    ensures reply { result.0 ≡ first_reply number replies.now }
    ensures later { result.1.now ≡ later_replies number replies.now }
{
    match replies.split_first() {
        Some(((at, _, reply), later)) if *at == number => (Some(*reply), later),
        _ => (None, replies),
    }
}

// Whether the event of this number was skipped, and then is the first of these, and those that were skipped later.
fn next_skipped(skipped: &[usize], number: usize) -> (bool, &[usize])
    ensures skips { result.0 ≡ is_skipped number skipped.now }
    ensures later { result.1.now ≡ later_skipped number skipped.now }
{
    match skipped.split_first() {
        Some((first, later)) if *first == number => (true, later),
        _ => (false, skipped),
    }
}

// Records the event, at which this reply came or none.
fn note<A: Allocator>(
    history: &mut Vec<Recorded, A>,
    event: Event<u64>,
    skipped: bool,
    reply: Option<Reply<u64>>,
) -> Result<(), AllocError>
    ensures { OnOk result (history.new.items ≡ history.old.items ++ entry event (if skipped then Skipped else Ran None reply)) }
{
    if skipped {
        return Ok(());
    }
    let party = match event {
        Event::Begin(party, call) => {
            history.push(Recorded::Begin(party, call))?;
            party
        }
        Event::Step(party, _) => party,
    };
    if let Some(reply) = reply {
        history.push(Recorded::End(party, reply))?;
    }
    Ok(())
}

/// The calls of a replay of these events: beginnings and replies, in the order of time. Steps are not recorded, nor what they did to the queue.
///
/// Where the replay conforms to the events, as each that `machine_replay` makes does, they are a legal history.
///
/// # Errors
///
/// Where there is no memory.
pub fn record<A: Allocator + Copy>(
    alloc: A,
    events: &[Event<u64>],
    replay: &Replay<u64, A>,
) -> Result<Vec<Recorded, A>, AllocError>
    ensures exact { IfOk result (λ h. h.items ≡ history_of events.now replay.now) }
    ensures legal { IfOk result (λ h. (cap : Option ℕ) (parties : ℕ) → Conforms cap parties events.now replay.now → IsLegal (in_steps cap) parties h.items) }
{
    let mut history = Vec::new(alloc);
    let mut replies = replay.replies.as_slice();
    let mut skipped = replay.skipped.as_slice();
    let mut rest = events;
    let mut number = 0;
    while let Some((event, later)) = rest.split_first() {
        let (was_skipped, later_skips) = next_skipped(skipped, number);
        let (reply, later_answers) = next_reply(replies, number);
        note(&mut history, *event, was_skipped, reply)?;
        skipped = later_skips;
        replies = later_answers;
        rest = later;
        number += 1;
    }
    Ok(history)
}

/// Runs the events, from the empty open queue on, and records the calls of this replay: they are a legal history.
///
/// # Errors
///
/// Where there is no memory, or no queue may have the capacity.
pub fn replay_recorded<A: Allocator + Copy>(
    alloc: A,
    kind: Kind,
    parties: usize,
    events: &[Event<u64>],
) -> Result<Vec<Recorded, A>, AllocError>
    requires { CanReplay kind }
    ensures exact { IfOk result (λ h. IsRecordOf A kind parties events.now h.items) }
    ensures legal { IfOk result (λ h. IsLegal (in_steps (capacity_of kind)) parties h.items) }
{
    let replayed = replay(alloc, kind, parties, Vec::from_slice(alloc, events)?)?;
    record(alloc, events, &replayed)
}
