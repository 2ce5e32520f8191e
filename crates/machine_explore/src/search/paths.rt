//! Shortest ways to the positions of a table, with few changes of party.
use crate::schedule::Move;
use crate::search::edges::{Graph, NOWHERE, number_of};
use crate::search::numbers::{at, nowhere, set};
use crate::search::outcomes::FinalPositions;
use crate::sequence::Sequence;
use std::alloc::{AllocError, Allocator};

// The best of the shortest ways to a position whose last move is one party's.
#[derive(Clone, Copy)]
struct Lane {
    // How often the party changes on the way.
    changes: usize,
    // The lane of the move before, or nowhere at the first move.
    before: usize,
}

/// Shortest ways from the first position to each other one.
#[derive(Drop)]
pub(crate) struct Paths<A: Allocator> {
    // How many moves the way to each position has.
    depths: Vec<usize, A>,
    // The lanes of the first position, by the party of the last move, then those of the second, and so on.
    lanes: Vec<Lane, A>,
}

// A schedule whose calls begin late, as far as it is made.
#[derive(Drop)]
struct Late<A: Allocator> {
    // Where it leads.
    place: usize,
    // For each party whether its call has begun and waits for its first step.
    waiting: Vec<bool, A>,
    moves: Vec<Move, A>,
}

// What stands before a first move.
const FIRST_LANE: Lane = Lane {
    changes: 0,
    before: NOWHERE,
};

const NO_LANE: Lane = Lane {
    changes: usize::MAX,
    before: NOWHERE,
};

impl<A: Allocator + Copy> Paths<A> {
    /// The shortest ways through the table, whose positions are in the order of a walk breadth first.
    pub(crate) fn new(alloc: A, graph: &Graph<A>) -> Result<Self, AllocError> {
        let lanes = graph.len().saturating_mul(graph.parties);
        let mut paths = Paths {
            depths: nowhere(alloc, graph.len())?,
            lanes: vec![in alloc; NO_LANE; lanes]?,
        };
        paths.relax_all(graph);
        Ok(paths)
    }

    // Takes all ways into account.
    fn relax_all(&mut self, graph: &Graph<A>) {
        set(&mut self.depths, 0, 0);
        for place in 0..graph.len() {
            for party in 0..graph.parties {
                self.relax(graph, place, party, true);
                self.relax(graph, place, party, false);
            }
        }
    }

    // Takes the ways by the position at this place into account, whose next move is the party's.
    fn relax(&mut self, graph: &Graph<A>, place: usize, party: usize, granted: bool) {
        let Some(to) = graph.lead(place, party, granted) else {
            return;
        };
        if self.deepens(place, to) {
            let lane = self.continued(graph.parties, place, party);
            self.improve(number_of(graph.parties, to, party), lane);
        }
    }

    // Whether a move from the one place to the other goes on a shortest way, as that of the first move that leads there.
    fn deepens(&mut self, place: usize, to: usize) -> bool {
        let depth = at(&self.depths, place).saturating_add(1);
        if at(&self.depths, to) == NOWHERE {
            set(&mut self.depths, to, depth);
        }
        at(&self.depths, to) == depth
    }

    // Puts the lane where another one stands, if it is better.
    fn improve(&mut self, place: usize, lane: Lane) {
        if let Some(known) = self.lanes.get_mut(place) {
            if lane.changes < known.changes {
                *known = lane;
            }
        }
    }

    // The best way to the position at this place, as what stands before a move of the party.
    fn continued(&self, parties: usize, place: usize, party: usize) -> Lane {
        if place == 0 {
            return FIRST_LANE;
        }
        let mut best = NO_LANE;
        for last in 0..parties {
            let before = number_of(parties, place, last);
            let changes = self
                .changes(before)
                .saturating_add((last != party) as usize);
            if changes < best.changes {
                best = Lane { changes, before };
            }
        }
        best
    }

    // How often the party changes on the way of this lane.
    fn changes(&self, lane: usize) -> usize {
        match self.lanes.get(lane) {
            Some(lane) => lane.changes,
            None => usize::MAX,
        }
    }

    /// A shortest schedule to the outcome of this number. Each call begins just before its first step.
    pub(crate) fn schedule(
        &self,
        alloc: A,
        graph: &Graph<A>,
        finals: &FinalPositions<A>,
        outcome: usize,
    ) -> Result<Sequence<Move, A>, AllocError> {
        let moves = self.trace(alloc, graph, self.last_lane(graph.parties, finals, outcome))?;
        begin_late(alloc, graph, &moves)
    }

    // The best lane to an end with this outcome.
    fn last_lane(&self, parties: usize, finals: &FinalPositions<A>, outcome: usize) -> usize {
        let mut shortest = NOWHERE;
        let mut best = NO_LANE;
        for end in finals.positions.as_slice() {
            let depth = at(&self.depths, end.place);
            if end.outcome == outcome && depth <= shortest {
                let lane = self.continued(parties, end.place, NOWHERE);
                if depth < shortest || lane.changes < best.changes {
                    best = lane;
                }
                shortest = depth;
            }
        }
        best.before
    }

    /// The moves on a shortest way to the position at this place.
    pub(crate) fn way_to(
        &self,
        alloc: A,
        graph: &Graph<A>,
        place: usize,
    ) -> Result<Vec<Move, A>, AllocError> {
        let lane = self.continued(graph.parties, place, NOWHERE);
        self.trace(alloc, graph, lane.before)
    }

    // The moves on the way of this lane.
    fn trace(&self, alloc: A, graph: &Graph<A>, last: usize) -> Result<Vec<Move, A>, AllocError> {
        let mut moves = Vec::new(alloc);
        let mut at = last;
        for _ in 0..graph.len() {
            let Some(lane) = self.lanes.get(at).copied() else {
                break;
            };
            moves.push(move_into(graph, at, lane.before))?;
            at = lane.before;
        }
        moves.reverse();
        Ok(moves)
    }
}

// The last move of this lane, before which stands that lane.
fn move_into<A: Allocator + Copy>(graph: &Graph<A>, lane: usize, before: usize) -> Move {
    let from = if before == NOWHERE {
        0
    } else {
        position_of(graph.parties, before)
    };
    let to = position_of(graph.parties, lane);
    let party = lane.saturating_sub(number_of(graph.parties, to, 0));
    Move {
        party,
        granted: graph.lead(from, party, true) == Some(to),
    }
}

// The place of the position to which this lane leads.
fn position_of(parties: usize, lane: usize) -> usize {
    match lane.checked_div(parties) {
        Some(place) => place,
        None => 0,
    }
}

// The same moves, with each beginning just before the first step of its call.
fn begin_late<A: Allocator + Copy>(
    alloc: A,
    graph: &Graph<A>,
    moves: &[Move],
) -> Result<Sequence<Move, A>, AllocError> {
    let mut late = Late {
        place: 0,
        waiting: vec![in alloc; false; graph.parties]?,
        moves: Vec::new(alloc),
    };
    for step in moves {
        late.take(graph, *step)?;
    }
    Ok(Sequence::of(late.moves))
}

impl<A: Allocator + Copy> Late<A> {
    // Takes the next move, which a beginning that waits comes before.
    fn take(&mut self, graph: &Graph<A>, step: Move) -> Result<(), AllocError> {
        let begins = graph.begins(self.place, step.party);
        self.place = graph
            .lead(self.place, step.party, step.granted)
            .unwrap_or(NOWHERE);
        if waits(&mut self.waiting, step.party, begins) {
            self.moves.push(Move {
                party: step.party,
                granted: true,
            })?;
        }
        if !begins {
            self.moves.push(step)?;
        }
        Ok(())
    }
}

// Whether the call of the party waits for its first step, before a move that begins a call or none.
fn waits(waiting: &mut [bool], party: usize, begins: bool) -> bool {
    match waiting.get_mut(party) {
        Some(known) => {
            let waits = *known;
            *known = begins;
            waits
        }
        None => false,
    }
}
