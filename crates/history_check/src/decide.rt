//! Whether a recorded history is legal.
ghost use Rattle.std.specs.Prelude.{◌+◌, ◌-◌, ◌<◌, IfOk, IfSome};
ghost use Rattle.history_check.specs.Legal.{IsLegal};
ghost use Rattle.history_check.specs.Verdicts.{AreBounds, IsFound, IsVerdict};

use crate::calls::Calls;
use crate::left_out::part_refutes;
use crate::order_finder::look_for_order;
use crate::part::Part;
use crate::patterns::{Sight, look_at};
use crate::recorded::{Event, Move, Rules};
use crate::search::{Found, find_order};
use crate::show::shows;
use crate::values::Value;
use std::alloc::{AllocError, Allocator};

/// Whether a history is legal.
#[derive(Drop)]
pub enum Verdict<A: Allocator> {
    /// It is, by this order of the effects of the calls.
    Legal(Vec<Move, A>),
    /// It is not: so many of its first events are the shortest beginning that is not legal.
    NotLegal(usize),
    /// The stages beside each other, and the moves to them, take up more words than they may.
    TooMany,
}

/// How many words the stages of a part of a history, and the moves to them, may take up: 128 MiB. Where that is not enough, the whole is searched.
const PART_WORDS: usize = 1 << 24;

/// Whether the history is legal. The stages beside each other, and the moves to them, take up so many words at most, about.
///
/// # Errors
///
/// Where there is no memory.
pub fn decide<A: Allocator + Copy>(
    alloc: A,
    rules: Rules,
    parties: usize,
    events: &[Event],
    most: usize,
) -> Result<Verdict<A>, AllocError>
    ensures { IfOk result (IsVerdict rules parties events.now) }
{
    match examine(alloc, rules, parties, events, most)? {
        Found::Order(moves) => Ok(Verdict::Legal(moves)),
        Found::Nothing(first) => shortest(alloc, rules, parties, events, most, first),
        Found::TooMany => Ok(Verdict::TooMany),
    }
}

// An order that is shown to be one, or that there is none: by what is seen at the calls, which is quick on long histories too, and else by a search of all orders.
fn examine<A: Allocator + Copy>(
    alloc: A,
    rules: Rules,
    parties: usize,
    events: &[Event],
    most: usize,
) -> Result<Found<A>, AllocError>
    ensures { IfOk result (IsFound rules parties events.now) }
{
    if let Some(found) = see_at_once(alloc, rules, parties, events, most)? {
        return Ok(found);
    }
    match find_order(alloc, rules, parties, events, most)? {
        Found::Order(moves) => {
            if shows(alloc, rules, parties, events, &moves)? {
                Ok(Found::Order(moves))
            } else {
                Ok(Found::TooMany)
            }
        }
        Found::Nothing(first) => Ok(Found::Nothing(first)),
        Found::TooMany => Ok(Found::TooMany),
    }
}

// What is seen at the calls: some values that have no order, or an order, which is shown to be one.
fn see_at_once<A: Allocator + Copy>(
    alloc: A,
    rules: Rules,
    parties: usize,
    events: &[Event],
    most: usize,
) -> Result<Option<Found<A>>, AllocError>
    ensures { IfOk result (λ o. IfSome o (IsFound rules parties events.now)) }
{
    let Some(calls) = Calls::of(alloc, parties, events)? else {
        return Ok(None);
    };
    match look_at(alloc, &calls)? {
        Sight::Wrong(part) => refuted(alloc, rules, parties, events, &part, most),
        Sight::Values(values) => ordered(alloc, rules, parties, events, &calls, &values),
        Sight::Equal => Ok(None),
    }
}

// That there is no order, if there is none of the part.
fn refuted<A: Allocator + Copy>(
    alloc: A,
    rules: Rules,
    parties: usize,
    events: &[Event],
    part: &Part<A>,
    most: usize,
) -> Result<Option<Found<A>>, AllocError>
    ensures { IfOk result (λ o. IfSome o (IsFound rules parties events.now)) }
{
    let words = most.min(PART_WORDS);
    let is_refuted = part_refutes(alloc, rules, parties, events, &part.kept, part.looks, words)?;
    if is_refuted {
        Ok(Some(Found::Nothing(part.before)))
    } else {
        Ok(None)
    }
}

// An order that the finder finds, if it is shown to be one.
fn ordered<A: Allocator + Copy>(
    alloc: A,
    rules: Rules,
    parties: usize,
    events: &[Event],
    calls: &Calls<'_, A>,
    values: &[Value],
) -> Result<Option<Found<A>>, AllocError>
    ensures { IfOk result (λ o. IfSome o (IsFound rules parties events.now)) }
{
    let Some(moves) = look_for_order(alloc, rules, parties, calls, values)? else {
        return Ok(None);
    };
    let is_shown = shows(alloc, rules, parties, events, &moves)?;
    if is_shown {
        Ok(Some(Found::Order(moves)))
    } else {
        Ok(None)
    }
}

// Two beginnings: one that is legal, and a longer one that is not, of which no order is thought to take more events than `taken`.
#[derive(Clone, Copy)]
struct Bounds {
    legal: usize,
    not_legal: usize,
    taken: usize,
}

// Which beginning between the bounds is examined.
#[derive(Clone, Copy)]
enum Aim {
    // The one that is thought to be the longest that is legal.
    Guess,
    // The one in the middle.
    Half,
    // The one so much longer than the lower bound.
    Step(usize),
}

impl Aim {
    // How much longer it is than the lower bound.
    fn distance(self, bounds: Bounds) -> usize {
        match self {
            Aim::Guess => bounds.taken.saturating_sub(bounds.legal),
            Aim::Half => bounds.not_legal.saturating_sub(bounds.legal) / 2,
            Aim::Step(step) => step.min(bounds.not_legal.saturating_sub(bounds.legal) / 2),
        }
    }

    // The next one, after one that is legal or is not: no two guesses without another between them.
    fn next(self, is_legal: bool) -> Aim {
        match (self, is_legal) {
            (Aim::Guess, true) => Aim::Step(1),
            (Aim::Guess, false) => Aim::Half,
            (Aim::Step(step), true) => Aim::Step(step.saturating_mul(2)),
            (Aim::Half, true) | (Aim::Half | Aim::Step(_), false) => Aim::Guess,
        }
    }
}

// The shortest beginning that is not legal, which is looked for from a guess on.
#[tactic(auto, using(crate::proofs::Deciding::first_bounds))]
fn shortest<A: Allocator + Copy>(
    alloc: A,
    rules: Rules,
    parties: usize,
    events: &[Event],
    most: usize,
    guess: usize,
) -> Result<Verdict<A>, AllocError>
    requires refuted { IsLegal rules parties events.now → ⊥ }
    ensures { IfOk result (IsVerdict rules parties events.now) }
{
    let mut bounds = Bounds {
        legal: 0,
        not_legal: events.len(),
        taken: guess,
    };
    let mut aim = Aim::Guess;
    'closing: while bounds.not_legal - bounds.legal > 1 {
        let middle = between(bounds, aim.distance(bounds));
        let Some(closer) = narrowed(alloc, rules, parties, events, most, bounds, middle)? else {
            return Ok(Verdict::TooMany);
        };
        bounds = closer;
        aim = aim.next(bounds.legal == middle);
    }
    Ok(Verdict::NotLegal(bounds.not_legal))
}

// A number between the bounds, so far from the lower one, if there is room.
fn between(bounds: Bounds, distance: usize) -> usize
    requires room { bounds.legal + 1 < bounds.not_legal }
    ensures above { bounds.legal < result }
    ensures below { result < bounds.not_legal }
{
    let most = bounds.not_legal - bounds.legal - 1;
    bounds.legal + distance.max(1).min(most)
}

// The bounds once the beginning of this length between them is examined.
fn narrowed<A: Allocator + Copy>(
    alloc: A,
    rules: Rules,
    parties: usize,
    events: &[Event],
    most: usize,
    bounds: Bounds,
    middle: usize,
) -> Result<Option<Bounds>, AllocError>
    requires bounds { AreBounds rules parties events.now bounds.legal bounds.not_legal }
    requires above { bounds.legal < middle }
    requires below { middle < bounds.not_legal }
    ensures { IfOk result (λ o. IfSome o (λ closer. AreBounds rules parties events.now closer.legal closer.not_legal × (closer.not_legal - closer.legal < bounds.not_legal - bounds.legal))) }
{
    match examine(alloc, rules, parties, &events[..middle], most)? {
        Found::Order(_) => Ok(Some(Bounds {
            legal: middle,
            ..bounds
        })),
        Found::Nothing(taken) => Ok(Some(Bounds {
            legal: bounds.legal,
            not_legal: middle,
            taken,
        })),
        Found::TooMany => Ok(None),
    }
}
