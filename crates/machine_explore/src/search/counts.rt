//! How many schedules lead to each outcome.
use crate::check::Table;
use crate::search::edges::Graph;
use crate::search::faults::SearchFault;
use crate::search::numbers::at;
use crate::search::outcomes::FinalPositions;
use crate::search::waits::{Waits, waits_of};
use std::alloc::{AllocError, Allocator};

/// A number of schedules. None where it is 2^128 or more.
pub type ScheduleCount = Option<u128>;

/// How many schedules lead to each outcome, by its number.
///
/// A beginning belongs to the call's first step. A schedule is counted by the moves that are in no wait, or leave one.
///
/// # Errors
///
/// `NoMemory`.
pub(crate) fn counts<A: Allocator + Copy>(
    alloc: A,
    parties: usize,
    table: &Table<A>,
    finals: &FinalPositions<A>,
) -> Result<Vec<ScheduleCount, A>, SearchFault> {
    let graph = Graph { table, parties };
    let waits = waits_of(alloc, &graph)?;
    let mut ways = zeros(alloc, waits.count)?;
    lead_on(&graph, &waits, &mut ways);
    let mut counts = zeros(alloc, finals.outcomes.len())?;
    add_finals(&waits, &ways, finals, &mut counts);
    Ok(counts)
}

/// The sum of two numbers of schedules.
pub(crate) fn sum(one: ScheduleCount, other: ScheduleCount) -> ScheduleCount {
    one?.checked_add(other?)
}

// Counts how many schedules lead to each wait.
fn lead_on<A: Allocator + Copy>(graph: &Graph<A>, waits: &Waits<A>, ways: &mut [ScheduleCount]) {
    increase(ways, at(&waits.numbers, 0), Some(1));
    for place in waits.order.iter().rev() {
        pass_on(graph, waits, ways, *place);
    }
}

// Adds the ways to the wait of this place to those of each other wait that a move reaches from there.
fn pass_on<A: Allocator + Copy>(
    graph: &Graph<A>,
    waits: &Waits<A>,
    ways: &mut [ScheduleCount],
    place: usize,
) {
    for number in 0..graph.moves() {
        if let Some(to) = graph.lead_by(place, number) {
            pass_to(waits, ways, place, to);
        }
    }
}

// Adds the ways to the wait of one place to those of the other, if that is another wait.
fn pass_to<A: Allocator>(waits: &Waits<A>, ways: &mut [ScheduleCount], from: usize, to: usize) {
    let wait = at(&waits.numbers, to);
    if wait != at(&waits.numbers, from) {
        let more = ways_at(waits, ways, from);
        increase(ways, wait, more);
    }
}

// Adds the ways to each end to those of its outcome.
fn add_finals<A: Allocator>(
    waits: &Waits<A>,
    ways: &[ScheduleCount],
    finals: &FinalPositions<A>,
    counts: &mut [ScheduleCount],
) {
    for end in finals.positions.as_slice() {
        increase(counts, end.outcome, ways_at(waits, ways, end.place));
    }
}

// The ways to the wait of this place.
fn ways_at<A: Allocator>(waits: &Waits<A>, ways: &[ScheduleCount], place: usize) -> ScheduleCount {
    let count = ways.get(at(&waits.numbers, place));
    count.copied().unwrap_or(Some(0))
}

// Adds to one of the numbers, if it is there.
fn increase(counts: &mut [ScheduleCount], number: usize, more: ScheduleCount) {
    if let Some(count) = counts.get_mut(number) {
        *count = sum(*count, more);
    }
}

// So many times 0.
fn zeros<A: Allocator>(alloc: A, count: usize) -> Result<Vec<ScheduleCount, A>, AllocError> {
    vec![in alloc; Some(0); count]
}
