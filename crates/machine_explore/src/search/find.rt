//! The positions of a program, found breadth first.
ghost use Rattle.machine_replay.specs.Replays.{CanReplay};

use crate::check::{Edge, Table};
use crate::position::Position;
use crate::program::Program;
use crate::search::edges::NOWHERE;
use crate::search::faults::SearchFault;
use crate::search::visited::Visited;
use queue_steps::steps::Kind;
use std::alloc::{AllocError, Allocator};

// What is found so far: the positions, and where each leads.
#[derive(Drop)]
struct Search<A: Allocator> {
    visited: Visited<A>,
    edges: Vec<Edge, A>,
}

/// The positions of the program in the order of a walk breadth first, and where each leads.
///
/// With `refuses` each request for a block may also be refused. Where a party cannot go on, or its request is not refused, the link is `usize::MAX`.
///
/// # Errors
///
/// `NoMemory`, `TooManyStates` where there are more than `most_states`, and `EndlessCall` where a call that comes first does not end.
pub fn find<A: Allocator + Copy>(
    alloc: A,
    kind: Kind,
    refuses: bool,
    program: &Program<A>,
    most_states: usize,
) -> Result<Table<A>, SearchFault>
    requires { CanReplay kind }
{
    let mut search = Search::new(alloc, most_states)?;
    search.begin(alloc, kind, program)?;
    search.run(alloc, refuses, program, most_states)?;
    Ok(search.into_table())
}

impl<A: Allocator + Copy> Search<A> {
    // Nothing is found so far, and so many positions at most.
    fn new(alloc: A, most_states: usize) -> Result<Self, AllocError> {
        Ok(Search {
            visited: Visited::new(alloc, most_states)?,
            edges: Vec::new(alloc),
        })
    }

    // What was found.
    fn into_table(self) -> Table<A> {
        let Search { visited, edges } = self;
        Table {
            positions: visited.into_positions(),
            edges,
        }
    }

    // Finds where each position leads, of which there are so many at most.
    fn run(
        &mut self,
        alloc: A,
        refuses: bool,
        program: &Program<A>,
        most_states: usize,
    ) -> Result<(), SearchFault> {
        for place in 0..most_states {
            if place >= self.visited.len() {
                break;
            }
            self.expand(alloc, refuses, program, place)?;
        }
        Ok(())
    }

    // Finds where the program begins.
    fn begin(&mut self, alloc: A, kind: Kind, program: &Program<A>) -> Result<(), SearchFault>
        requires { CanReplay kind }
    {
        match Position::start(alloc, kind, program)? {
            Some(start) => {
                self.visited.place_of(alloc, start)?;
                Ok(())
            }
            None => Err(SearchFault::EndlessCall),
        }
    }

    // Finds where each party leads from the position at this place.
    fn expand(
        &mut self,
        alloc: A,
        refuses: bool,
        program: &Program<A>,
        place: usize,
    ) -> Result<(), SearchFault> {
        for party in 0..program.parties.len() {
            let edge = self.edge(alloc, refuses, program, place, party)?;
            self.edges.push(edge)?;
        }
        Ok(())
    }

    // Finds where the party leads from the position at this place.
    fn edge(
        &mut self,
        alloc: A,
        refuses: bool,
        program: &Program<A>,
        place: usize,
        party: usize,
    ) -> Result<Edge, SearchFault> {
        let granted = self.lead(alloc, program, place, party, true)?;
        let refused = if refuses && self.asks(place, party) {
            self.lead(alloc, program, place, party, false)?
        } else {
            NOWHERE
        };
        Ok(Edge { granted, refused })
    }

    // Whether the party's next step from the position at this place asks for a block.
    fn asks(&self, place: usize, party: usize) -> bool {
        match self.visited.get(place) {
            Some(position) => position.asks(party),
            None => false,
        }
    }

    // The place of the position to which the party leads from the one at this place.
    fn lead(
        &mut self,
        alloc: A,
        program: &Program<A>,
        place: usize,
        party: usize,
        granted: bool,
    ) -> Result<usize, SearchFault> {
        let Some(position) = self.visited.get(place) else {
            return Ok(NOWHERE);
        };
        match position.after(alloc, program, party, granted)? {
            Some(next) => self.visited.place_of(alloc, next),
            None => Ok(NOWHERE),
        }
    }
}
