//! Where a party goes round for another. Nothing rests on it: `explore_waits` shows it to be right.
use crate::check::Table;
use crate::check_waits::{is_half_done_at, is_told_alike};
use crate::program::Program;
use crate::schedule::Move;
use crate::search::edges::Graph;
use crate::search::faults::SearchFault;
use crate::search::paths::Paths;
use crate::sequence::Sequence;
use crate::waiting::{Side, is_first, side_of};
use queue_steps::sizes::STEPS_ALONE;
use std::alloc::{AllocError, Allocator};

// A position at which one party waits for another.
#[derive(Clone, Copy)]
struct Round {
    // The position's place.
    place: usize,
    // Who goes round.
    waiter: Side,
    // Who is half done.
    other: Side,
}

/// A schedule at whose end one party waits for another, as it was found.
#[derive(Drop)]
pub(crate) struct Approach<A: Allocator> {
    /// Who goes round.
    pub(crate) waiter: usize,
    /// Who is half done.
    pub(crate) other: usize,
    /// The moves that lead there, behind the calls that come first.
    pub(crate) schedule: Sequence<Move, A>,
}

/// For each wait, as its parties, their calls and the labels of their steps tell it, a shortest schedule to the first position of the table that has it.
///
/// # Errors
///
/// `NoMemory`.
pub(crate) fn approaches<A: Allocator + Copy>(
    alloc: A,
    program: &Program<A>,
    table: &Table<A>,
) -> Result<Vec<Approach<A>, A>, SearchFault> {
    let parties = program.parties.len();
    let graph = Graph { table, parties };
    let rounds = rounds_of(alloc, program, &graph)?;
    let paths = Paths::new(alloc, &graph)?;
    Ok(approaches_by(alloc, &graph, &paths, &rounds)?)
}

// Where parties go round, in the order of the table. Of those that are told alike the first alone.
fn rounds_of<A: Allocator + Copy>(
    alloc: A,
    program: &Program<A>,
    graph: &Graph<A>,
) -> Result<Vec<Round, A>, AllocError> {
    let mut rounds = Vec::new(alloc);
    for place in 0..graph.len() {
        for waiter in 0..graph.parties {
            if let Some(round) = round_at(program, graph, place, waiter) {
                if !is_known(&round, &rounds) {
                    rounds.push(round)?;
                }
            }
        }
    }
    Ok(rounds)
}

// Where the party goes round at the position at this place: one other party alone is half done, and the next step leads back.
fn round_at<A: Allocator + Copy>(
    program: &Program<A>,
    graph: &Graph<A>,
    place: usize,
    waiter: usize,
) -> Option<Round> {
    if !goes_back(graph, place, waiter) {
        return None;
    }
    let other = half_done_beside(graph, place, waiter)?;
    let position = graph.table.positions.get(place)?;
    Some(Round {
        place,
        waiter: side_of(program, position, waiter),
        other: side_of(program, position, other),
    })
}

// Whether one of the rounds is told alike.
fn is_known(round: &Round, rounds: &[Round]) -> bool {
    for known in rounds {
        if is_told_alike(known.waiter, round.waiter) && is_told_alike(known.other, round.other) {
            return true;
        }
    }
    false
}

// A schedule by these paths to the position of each.
fn approaches_by<A: Allocator + Copy>(
    alloc: A,
    graph: &Graph<A>,
    paths: &Paths<A>,
    rounds: &[Round],
) -> Result<Vec<Approach<A>, A>, AllocError> {
    let mut approaches = Vec::new(alloc);
    for round in rounds {
        let moves = paths.way_to(alloc, graph, round.place)?;
        approaches.push(approach_of(*round, moves))?;
    }
    Ok(approaches)
}

// The schedule that has these moves, at whose end the one waits for the other.
fn approach_of<A: Allocator>(round: Round, moves: Vec<Move, A>) -> Approach<A> {
    Approach {
        waiter: round.waiter.party,
        other: round.other.party,
        schedule: Sequence::of(moves),
    }
}

// Whether the party, alone, comes back to the position at this place, and its next step leads there or to the call's first.
fn goes_back<A: Allocator + Copy>(graph: &Graph<A>, place: usize, party: usize) -> bool {
    let mut at = place;
    for steps in 0..STEPS_ALONE {
        let Some(next) = graph.lead(at, party, true) else {
            return false;
        };
        if next == place {
            return true;
        }
        if steps == 0 && !is_first(graph.local(next, party)) {
            return false;
        }
        at = next;
    }
    false
}

// The one party beside this one that is half done at the position at this place, if there is just one.
fn half_done_beside<A: Allocator + Copy>(
    graph: &Graph<A>,
    place: usize,
    party: usize,
) -> Option<usize> {
    let mut found = None;
    for other in 0..graph.parties {
        if other != party && is_half_done_at(graph.local(place, other)) {
            if found.is_some() {
                return None;
            }
            found = Some(other);
        }
    }
    found
}
