//! How many steps a call takes at most where it is alone.
use crate::check::Table;
use crate::search::edges::Graph;
use crate::search::faults::SearchFault;
use queue_steps::sizes::STEPS_ALONE;
use std::alloc::Allocator;

/// The most steps that a call takes until it replies, from any position of the table in which no other call is in progress, where it goes on alone and its requests are granted.
///
/// # Errors
///
/// `EndlessCall` where one does not reply within `STEPS_ALONE` steps.
pub(crate) fn longest_call_alone<A: Allocator + Copy>(
    parties: usize,
    table: &Table<A>,
) -> Result<u64, SearchFault> {
    let graph = Graph { table, parties };
    let mut most = 0;
    for place in 0..graph.len() {
        if let Some(party) = party_alone(&graph, place) {
            let Some(steps) = steps_alone(&graph, place, party) else {
                return Err(SearchFault::EndlessCall);
            };
            most = steps.max(most);
        }
    }
    Ok(most)
}

// The party that alone is in a call at the position at this place, if there is just one.
fn party_alone<A: Allocator + Copy>(graph: &Graph<A>, place: usize) -> Option<usize> {
    let mut alone = None;
    for party in 0..graph.parties {
        if graph.is_in_call(place, party) {
            if alone.is_some() {
                return None;
            }
            alone = Some(party);
        }
    }
    alone
}

// How many steps the party's call takes from there until it replies, if that is within those of a call alone.
fn steps_alone<A: Allocator + Copy>(graph: &Graph<A>, place: usize, party: usize) -> Option<u64> {
    let mut at = place;
    for steps in 0..STEPS_ALONE {
        at = graph.lead(at, party, true)?;
        if !graph.is_in_call(at, party) {
            return Some(steps + 1);
        }
    }
    None
}
