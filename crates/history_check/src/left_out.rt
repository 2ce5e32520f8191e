//! What remains of a history where values are left out, and calls that only look. Where no order of it is, there is none of the whole.
ghost use Rattle.std.specs.Prelude.{◌≡◌, ℕ, Some, ◌++◌, ◌∷◌, [], List, true, false, replicate, slice_get, slice_set, if◌then◌else◌, IfOk, IfSome, OnOk};
ghost use Rattle.history_check.specs.Legal.{IsLegal};
ghost use Rattle.history_check.specs.Levels.{Expects};
ghost use Rattle.history_check.specs.LeftOut.{is_among, is_left_out, remaining, ArePlain};
ghost use Rattle.history_check.specs.declared.recorded.Event.{Event as SpecEvent};

use crate::expected::{expected, next_event, note_past};
use crate::recorded::{Event, Rules};
use crate::search::{Found, find_order};
use queue_steps::errors::{ForcePushError, PushError};
use queue_steps::model::{Call, Reply};
use queue_steps::sizes::LIMIT;
use std::alloc::{AllocError, Allocator};

// Whether the value is one of these.
fn is_among(values: &[u64], value: u64) -> bool
    ensures { result ≡ is_among values.now value }
{
    let mut rest = values;
    while let [first, others @ ..] = rest {
        if *first == value {
            return true;
        }
        rest = others;
    }
    false
}

// Whether the call is left out that ends with this reply, if it ends.
fn is_left_out(kept: &[u64], looks: bool, call: Call<u64>, reply: Option<Reply<u64>>) -> bool
    ensures { result ≡ is_left_out (is_among kept.now) looks call reply }
{
    match (call, reply) {
        (Call::Push(_), Some(Reply::Push(Err(PushError::Full(_))))) => true,
        (Call::Push(_), Some(Reply::Push(Err(PushError::NoMemory(_))))) => true,
        (Call::Push(value), _) => !is_among(kept, value),
        (Call::ForcePush(_), Some(Reply::ForcePush(Err(ForcePushError::NoMemory(_))))) => true,
        (Call::ForcePush(value), _) => !is_among(kept, value),
        (Call::Pop, Some(Reply::Pop(Ok(item)))) => !is_among(kept, item),
        (Call::Pop, Some(Reply::Pop(Err(_)))) => !looks,
        (Call::Pop, _) => false,
        (Call::Close, Some(Reply::Close(false))) => !looks,
        (Call::Close, _) => false,
        (Call::IsClosed, _) => !looks,
        (Call::IsEmpty, Some(Reply::IsEmpty(true))) => !looks,
        _ => true,
    }
}

// Marks the party's call. False where there is no such party.
fn mark(outs: &mut [bool], party: usize, out: bool) -> bool
    ensures { result ≡ true → outs.new ≡ slice_set outs.old party out }
{
    if party < outs.len() {
        outs[party] = out;
        true
    } else {
        false
    }
}

// The reply that is noted of the party.
fn noted(replies: &[Option<Reply<u64>>], party: usize) -> Option<Option<Reply<u64>>>
    ensures { result ≡ slice_get replies.now party }
{
    replies.get(party).copied()
}

// Whether the event remains, and notes of a call that begins whether it is left out. None where there is no such party.
fn remains(
    event: Event,
    kept: &[u64],
    looks: bool,
    replies: &[Option<Reply<u64>>],
    outs: &mut [bool],
) -> Option<bool>
    ensures { IfSome result (λ stays. (es : List SpecEvent) → Expects replies.now (event ∷ es) → remaining (is_among kept.now) looks outs.old (event ∷ es) ≡ (if stays then event ∷ remaining (is_among kept.now) looks outs.new es else remaining (is_among kept.now) looks outs.new es)) }
{
    match event {
        Event::Begin(party, call) => {
            let Some(reply) = noted(replies, party) else {
                return None;
            };
            let out = is_left_out(kept, looks, call, reply);
            if mark(outs, party, out) {
                return Some(!out);
            }
            None
        }
        Event::End(party, _) => Some(!outs.get(party).copied()?),
    }
}

// Puts the event at the end, if it remains.
fn put<A: Allocator>(
    events: &mut Vec<Event, A>,
    event: Event,
    stays: bool,
) -> Result<(), AllocError>
    ensures { OnOk result (events.new.items ≡ (if stays then events.old.items ++ event ∷ [] else events.old.items)) }
{
    if stays {
        events.push(event)?;
    }
    Ok(())
}

// What remains where these values are kept; none where a party is not one of so many.
fn remaining<A: Allocator + Copy>(
    alloc: A,
    parties: usize,
    events: &[Event],
    kept: &[u64],
    looks: bool,
) -> Result<Option<Vec<Event, A>>, AllocError>
    ensures { IfOk result (λ o. IfSome o (λ rest. rest.items ≡ remaining (is_among kept.now) looks (replicate parties false) events.now)) }
{
    let mut noted = expected(alloc, events, parties)?;
    let replies = noted.as_mut_slice();
    let mut marks = vec![in alloc; false; parties]?;
    let outs = marks.as_mut_slice();
    let mut some = Vec::new(alloc);
    let mut rest = events;
    while let Some((event, others)) = next_event(rest) {
        let Some(stays) = remains(event, kept, looks, replies, outs) else {
            return Ok(None);
        };
        put(&mut some, event, stays)?;
        note_past(event, others, replies);
        rest = others;
    }
    Ok(Some(some))
}

// Whether the event begins no forced push.
fn is_unforced(event: Event) -> bool
    ensures { result ≡ true → (n : ℕ) (es : List SpecEvent) → ArePlain (Some n) es → ArePlain (Some n) (event ∷ es) }
{
    match event {
        Event::Begin(_, call) => match call {
            Call::ForcePush(_) => false,
            _ => true,
        },
        Event::End(_, _) => true,
    }
}

// Whether no event begins a forced push.
fn are_unforced(events: &[Event]) -> bool
    ensures { result ≡ true → (n : ℕ) → ArePlain (Some n) events.now }
{
    let mut rest = events;
    while let Some((event, others)) = next_event(rest) {
        if !is_unforced(event) {
            return false;
        }
        rest = others;
    }
    true
}

// Whether the queue has no capacity, or no event begins a forced push.
#[tactic(auto, using(crate::proofs::LeftOut::all_plain))]
fn are_plain(rules: Rules, events: &[Event]) -> bool
    ensures { result ≡ true → ArePlain rules.cap events.now }
{
    match rules.cap {
        None => true,
        Some(_) => are_unforced(events),
    }
}

/// Whether there is no order already of what remains where these values are kept, and so none of the history.
///
/// # Errors
///
/// Where there is no memory.
pub fn part_refutes<A: Allocator + Copy>(
    alloc: A,
    rules: Rules,
    parties: usize,
    events: &[Event],
    kept: &[u64],
    looks: bool,
    most: usize,
) -> Result<bool, AllocError>
    ensures { IfOk result (λ yes. yes ≡ true → IsLegal rules parties events.now → ⊥) }
{
    if events.len() as u64 >= LIMIT || !are_plain(rules, events) {
        return Ok(false);
    }
    let Some(rest) = remaining(alloc, parties, events, kept, looks)? else {
        return Ok(false);
    };
    let free = Rules {
        cap: None,
        at_once: rules.at_once,
    };
    match find_order(alloc, free, parties, &rest, most)? {
        Found::Nothing(_) => Ok(true),
        _ => Ok(false),
    }
}
