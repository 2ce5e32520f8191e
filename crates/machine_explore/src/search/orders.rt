//! Orders of whole calls.
use crate::check::Table;
use crate::program::Program;
use crate::search::edges::Graph;
use crate::search::faults::SearchFault;
use crate::search::numbers::{at, nowhere, set};
use crate::search::outcomes::FinalPositions;
use std::alloc::{AllocError, Allocator};

/// The parties of whole calls, by the calls that come one after another. None where no order has the outcome.
pub type Order<A> = Option<Vec<usize, A>>;

// A position on the way, and the number of the move that is tried next from there.
#[derive(Clone, Copy)]
struct Frame {
    place: usize,
    next: usize,
}

// A search depth first, by the lower party first, in which each call that begins goes on alone until it replies.
#[derive(Drop)]
struct OrderSearch<A: Allocator> {
    // For each position 0 once it was met.
    met: Vec<usize, A>,
    // The number of each position's outcome.
    outcomes: Vec<usize, A>,
    frames: Vec<Frame, A>,
    orders: Vec<Order<A>, A>,
}

/// For each outcome, by its number, the least list of parties that is an order of whole calls, each party's in its own order, with the outcome's replies and items left.
///
/// A call that is alone answers as the queue of one owner does: so an order of whole calls is a way through the table on which no party moves while another one is in a call.
///
/// # Errors
///
/// `NoMemory`.
pub(crate) fn orders<A: Allocator + Copy>(
    alloc: A,
    parties: usize,
    table: &Table<A>,
    finals: &FinalPositions<A>,
) -> Result<Vec<Order<A>, A>, SearchFault> {
    let graph = Graph { table, parties };
    let mut search = OrderSearch::new(alloc, graph.len(), finals)?;
    search.run(alloc, &graph)?;
    Ok(search.orders)
}

/// How many calls the parties make in all.
pub(crate) fn calls_of<A: Allocator>(program: &Program<A>) -> usize {
    let mut calls: usize = 0;
    for party in 0..program.parties.len() {
        calls = calls.saturating_add(program.call_count(party));
    }
    calls
}

impl<A: Allocator + Copy> OrderSearch<A> {
    fn new(alloc: A, positions: usize, finals: &FinalPositions<A>) -> Result<Self, AllocError> {
        Ok(OrderSearch {
            met: nowhere(alloc, positions)?,
            outcomes: outcome_numbers(alloc, positions, finals)?,
            frames: Vec::new(alloc),
            orders: no_orders(alloc, finals.outcomes.len())?,
        })
    }

    // Goes all such ways from the first position.
    fn run(&mut self, alloc: A, graph: &Graph<A>) -> Result<(), AllocError> {
        self.enter(alloc, graph, 0)?;
        for _ in 0..u64::MAX {
            let Some(frame) = self.frames.last().copied() else {
                break;
            };
            self.go_on(alloc, graph, frame)?;
        }
        Ok(())
    }

    // Meets the position at this place.
    fn enter(&mut self, alloc: A, graph: &Graph<A>, place: usize) -> Result<(), AllocError> {
        set(&mut self.met, place, 0);
        let outcome = at(&self.outcomes, place);
        self.note(alloc, graph, outcome)?;
        self.frames.push(Frame { place, next: 0 })?;
        Ok(())
    }

    // Tries the next move from the last position, or goes back where all were tried.
    fn go_on(&mut self, alloc: A, graph: &Graph<A>, frame: Frame) -> Result<(), AllocError> {
        if frame.next >= graph.moves() {
            self.frames.pop();
            return Ok(());
        }
        if let Some(top) = self.frames.last_mut() {
            top.next = frame.next.saturating_add(1);
        }
        match graph.lead_alone(frame.place, frame.next) {
            Some(to) if at(&self.met, to) != 0 => self.enter(alloc, graph, to),
            _ => Ok(()),
        }
    }

    // Keeps the order of the way that was gone, if it is the first to this outcome.
    fn note(&mut self, alloc: A, graph: &Graph<A>, outcome: usize) -> Result<(), AllocError> {
        if let Some(known) = self.orders.get_mut(outcome) {
            if known.is_none() {
                *known = Some(order_by(alloc, graph, &self.frames)?);
            }
        }
        Ok(())
    }
}

// The number of each position's outcome, if it ends a run.
fn outcome_numbers<A: Allocator + Copy>(
    alloc: A,
    positions: usize,
    finals: &FinalPositions<A>,
) -> Result<Vec<usize, A>, AllocError> {
    let mut numbers = nowhere(alloc, positions)?;
    for end in finals.positions.as_slice() {
        set(&mut numbers, end.place, end.outcome);
    }
    Ok(numbers)
}

// So many times no order.
fn no_orders<A: Allocator + Copy>(alloc: A, count: usize) -> Result<Vec<Order<A>, A>, AllocError> {
    let mut orders = Vec::new(alloc);
    for _ in 0..count {
        orders.push(None)?;
    }
    Ok(orders)
}

// The parties whose calls begin on the way.
fn order_by<A: Allocator + Copy>(
    alloc: A,
    graph: &Graph<A>,
    way: &[Frame],
) -> Result<Vec<usize, A>, AllocError> {
    let mut order = Vec::new(alloc);
    for frame in way {
        let party = graph.party_of(frame.next.saturating_sub(1));
        if !graph.is_in_call(frame.place, party) {
            order.push(party)?;
        }
    }
    Ok(order)
}
