//! The outcomes of a table of positions, and where it has each.
use crate::check::Table;
use crate::outcome::Outcome;
use crate::program::Program;
use crate::search::faults::SearchFault;
use std::alloc::Allocator;

/// A position that ends a run.
#[derive(Clone, Copy)]
pub struct FinalPosition {
    /// The position's place.
    pub place: usize,
    /// The number of its outcome, from 0.
    pub outcome: usize,
}

/// The distinct outcomes of a table, in the order of their first final positions, and all final positions in the order of the table.
#[derive(Drop)]
pub struct FinalPositions<A: Allocator> {
    /// What runs end with.
    pub outcomes: Vec<Outcome<A>, A>,
    /// Where they end.
    pub positions: Vec<FinalPosition, A>,
}

/// The outcomes of the table's final positions.
///
/// # Errors
///
/// `NoMemory`.
pub fn collect_finals<A: Allocator + Copy>(
    alloc: A,
    program: &Program<A>,
    table: &Table<A>,
) -> Result<FinalPositions<A>, SearchFault> {
    let mut found = FinalPositions {
        outcomes: Vec::new(alloc),
        positions: Vec::new(alloc),
    };
    for (place, position) in table.positions.iter().enumerate() {
        if position.is_final(program) {
            note(place, position.outcome(alloc)?, &mut found)?;
        }
    }
    Ok(found)
}

// Notes an end with this outcome.
fn note<A: Allocator>(
    place: usize,
    outcome: Outcome<A>,
    found: &mut FinalPositions<A>,
) -> Result<(), SearchFault> {
    let outcome = number_of(outcome, &mut found.outcomes)?;
    found.positions.push(FinalPosition { place, outcome })?;
    Ok(())
}

// The number of the outcome among these, to which it is added where it is new.
fn number_of<A: Allocator>(
    outcome: Outcome<A>,
    outcomes: &mut Vec<Outcome<A>, A>,
) -> Result<usize, SearchFault> {
    for (number, other) in outcomes.iter().enumerate() {
        if outcome.is_same(other) {
            return Ok(number);
        }
    }
    let number = outcomes.len();
    outcomes.push(outcome)?;
    Ok(number)
}
