//! The values that a history's calls bring and take, and when they may do so.
use crate::calls::{Calls, Gaps, Made};
use queue_steps::model::{Call, Reply};
use std::alloc::{AllocError, Allocator};
use std::collections::HashMap;
use std::hash::{BuildHasherDefault, FoldHasher};

/// A value that a call brings.
#[derive(Clone, Copy)]
pub struct Value {
    pub item: u64,
    /// The call that brings it.
    pub push: usize,
    /// The call with an end that takes it, if there is one.
    pub pop: Option<usize>,
    /// When it may enter the queue.
    pub enters: Gaps,
    /// When it may leave. Where nothing has to take it, that is past the last gap.
    pub leaves: Gaps,
}

/// An item that calls cannot have brought and taken as they say, and the gap by which this is certain.
#[derive(Clone, Copy)]
pub struct Wrong {
    pub item: u64,
    pub by: usize,
}

/// What the calls of a history claim of its values.
#[derive(Drop)]
pub enum Claim<A: Allocator> {
    /// These values, each brought once, in the order in which their pushes begin.
    Values(Vec<Value, A>),
    /// This item is taken twice, or was never brought, or was taken before it was brought.
    Wrong(Wrong),
    /// Two calls bring equal values.
    Equal,
}

/// The one of two values whose pop begins later.
pub fn last_to_leave(one: Option<Value>, other: Option<Value>) -> Option<Value> {
    match (one, other) {
        (Some(first), Some(second)) if first.leaves.from >= second.leaves.from => one,
        (_, Some(_)) => other,
        (_, None) => one,
    }
}

/// The one of two values whose push begins later.
pub fn last_to_enter(one: Option<Value>, other: Option<Value>) -> Option<Value> {
    match (one, other) {
        (Some(first), Some(second)) if first.enters.from >= second.enters.from => one,
        (_, Some(_)) => other,
        (_, None) => one,
    }
}

// The place of each item's value.
type Places<A> = HashMap<u64, usize, BuildHasherDefault<FoldHasher>, A>;

/// What the calls claim of the values.
///
/// # Errors
///
/// Where there is no memory.
pub fn values_of<A: Allocator + Copy>(
    alloc: A,
    calls: &Calls<'_, A>,
) -> Result<Claim<A>, AllocError> {
    let mut values = Vec::new(alloc);
    let mut places: Places<A> = HashMap::with_hasher(alloc, BuildHasherDefault::new());
    for push in 0..calls.len() {
        let Some(made) = calls.get(push) else {
            continue;
        };
        let Some(item) = brought(made) else {
            continue;
        };
        if places.insert(item, values.len())?.is_some() {
            return Ok(Claim::Equal);
        }
        values.push(Value {
            item,
            push,
            pop: None,
            enters: made.gaps,
            leaves: never(made, calls.last_gap()),
        })?;
    }
    for pop in 0..calls.len() {
        if let Some(wrong) = note_pop(calls, &mut values, &places, pop) {
            return Ok(Claim::Wrong(wrong));
        }
    }
    Ok(Claim::Values(values))
}

// The item that the call brings, or may have brought if it does not end.
fn brought(made: Made) -> Option<u64> {
    match (made.call, made.reply) {
        (Call::Push(value), None | Some(Reply::Push(Ok(())))) => Some(value),
        (Call::ForcePush(value), None | Some(Reply::ForcePush(Ok(_)))) => Some(value),
        _ => None,
    }
}

/// The item that the call takes, if it ends.
pub fn taken(made: Made) -> Option<u64> {
    match made.reply {
        Some(Reply::Pop(Ok(item))) => Some(item),
        Some(Reply::ForcePush(Ok(Some(item)))) => Some(item),
        _ => None,
    }
}

// Past the last gap: what a call without an end may have brought comes after all else.
fn never(push: Made, last_gap: usize) -> Gaps {
    let far = match push.reply {
        Some(_) => 1,
        None => 2,
    };
    let gap = last_gap.saturating_add(far);
    Gaps {
        from: gap,
        until: gap,
    }
}

// Notes that the call takes its item, if it takes one; what is wrong with that.
fn note_pop<A: Allocator>(
    calls: &Calls<'_, A>,
    values: &mut [Value],
    places: &Places<A>,
    pop: usize,
) -> Option<Wrong> {
    let made = calls.get(pop)?;
    let item = taken(made)?;
    let by = made.gaps.until;
    let Some(place) = places.get(&item).copied() else {
        return Some(Wrong { item, by });
    };
    let value = values.get_mut(place)?;
    if let Some(before) = value.pop {
        let first = calls.get(before).map_or(by, |other| other.gaps.until);
        return Some(Wrong {
            item,
            by: first.max(by),
        });
    }
    if by < value.enters.from {
        return Some(Wrong { item, by });
    }
    value.pop = Some(pop);
    value.leaves = Gaps {
        from: made.gaps.from.max(value.enters.from),
        until: by,
    };
    value.enters.until = value.enters.until.min(by);
    None
}
