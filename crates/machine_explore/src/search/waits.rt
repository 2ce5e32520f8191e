//! The waits of a table: positions that lead to one another.
use crate::search::edges::{Graph, NOWHERE};
use crate::search::numbers::{at, nowhere, set};
use std::alloc::{AllocError, Allocator};

/// The waits of a table. A position that leads to no position that leads back is a wait of its own.
#[derive(Drop)]
pub(crate) struct Waits<A: Allocator> {
    /// The number of each position's wait, and `NOWHERE` where no moves of whole steps lead. Moves lead from higher numbers to lower ones.
    pub(crate) numbers: Vec<usize, A>,
    /// The places of the positions, by the numbers of their waits.
    pub(crate) order: Vec<usize, A>,
    /// How many waits there are.
    pub(crate) count: usize,
}

// A position whose moves are being followed.
#[derive(Clone, Copy)]
struct Frame {
    place: usize,
    // The number of the next move.
    next: usize,
    // When the earliest position was met that it is known to lead to.
    low: usize,
}

// A search depth first, by which waits are found.
#[derive(Drop)]
struct WaitSearch<A: Allocator> {
    // When each position was met.
    met: Vec<usize, A>,
    // How many positions were met.
    clock: usize,
    // Positions that were met, and whose waits are not known.
    open: Vec<usize, A>,
    frames: Vec<Frame, A>,
    waits: Waits<A>,
}

/// The waits of the positions to which moves of whole steps lead from the first.
pub(crate) fn waits_of<A: Allocator + Copy>(
    alloc: A,
    graph: &Graph<A>,
) -> Result<Waits<A>, AllocError> {
    let mut search = WaitSearch::new(alloc, graph.len())?;
    search.run(graph)?;
    Ok(search.waits)
}

impl<A: Allocator + Copy> WaitSearch<A> {
    fn new(alloc: A, count: usize) -> Result<Self, AllocError> {
        Ok(WaitSearch {
            met: nowhere(alloc, count)?,
            clock: 0,
            open: Vec::new(alloc),
            frames: Vec::new(alloc),
            waits: Waits {
                numbers: nowhere(alloc, count)?,
                order: Vec::new(alloc),
                count: 0,
            },
        })
    }

    // Goes all ways from the first position.
    fn run(&mut self, graph: &Graph<A>) -> Result<(), AllocError> {
        self.enter(0)?;
        for _ in 0..u64::MAX {
            let Some(frame) = self.frames.last().copied() else {
                break;
            };
            self.go_on(graph, frame)?;
        }
        Ok(())
    }

    // Follows the next move from a position, or leaves it where all are followed.
    fn go_on(&mut self, graph: &Graph<A>, frame: Frame) -> Result<(), AllocError> {
        if frame.next < graph.moves() {
            self.follow(graph, frame)
        } else {
            self.leave(frame)
        }
    }

    // Meets the position at this place.
    fn enter(&mut self, place: usize) -> Result<(), AllocError> {
        let low = self.clock;
        set(&mut self.met, place, low);
        self.clock = low.saturating_add(1);
        self.open.push(place)?;
        self.frames.push(Frame {
            place,
            next: 0,
            low,
        })?;
        Ok(())
    }

    // Follows one move.
    fn follow(&mut self, graph: &Graph<A>, frame: Frame) -> Result<(), AllocError> {
        if let Some(top) = self.frames.last_mut() {
            top.next = frame.next.saturating_add(1);
        }
        let Some(to) = graph.lead_by(frame.place, frame.next) else {
            return Ok(());
        };
        let when = at(&self.met, to);
        if when == NOWHERE {
            return self.enter(to);
        }
        if at(&self.waits.numbers, to) == NOWHERE {
            self.lower(when);
        }
        Ok(())
    }

    // The last position whose moves are followed leads to what was met then.
    fn lower(&mut self, when: usize) {
        if let Some(top) = self.frames.last_mut() {
            top.low = top.low.min(when);
        }
    }

    // All moves from the last position are followed.
    fn leave(&mut self, frame: Frame) -> Result<(), AllocError> {
        self.frames.pop();
        self.lower(frame.low);
        if frame.low != at(&self.met, frame.place) {
            return Ok(());
        }
        self.close(frame.place)
    }

    // The positions that are open from this place on are a wait.
    fn close(&mut self, first: usize) -> Result<(), AllocError> {
        let mut place = NOWHERE;
        for _ in 0..self.open.len() {
            if place == first {
                break;
            }
            place = self.close_last()?;
        }
        self.waits.count = self.waits.count.saturating_add(1);
        Ok(())
    }

    // The last open position belongs to the wait that is closed. Tells its place.
    fn close_last(&mut self) -> Result<usize, AllocError> {
        let place = self.open.pop().unwrap_or(NOWHERE);
        set(&mut self.waits.numbers, place, self.waits.count);
        self.waits.order.push(place)?;
        Ok(place)
    }
}
