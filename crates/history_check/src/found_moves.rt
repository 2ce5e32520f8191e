//! The moves that a finder has found, and those that it is still undecided about.
use crate::calls::put_at;
use crate::recorded::Move;
use std::alloc::{AllocError, Allocator};

// A move that is no event, the gap in which it is made, and the place of the one before it.
#[derive(Clone, Copy)]
struct Step {
    before: Option<usize>,
    gap: usize,
    next: Move,
}

/// The moves that a finder has found: first those that are decided, then a tree of those that are not.
#[derive(Drop)]
pub struct FoundMoves<A: Allocator> {
    moves: Vec<Move, A>,
    // How many of the decided moves are events.
    taken: usize,
    steps: Vec<Step, A>,
    // How many steps there may be before those that led nowhere are forgotten.
    room: usize,
}

/// How many steps are noted, at least, before they are decided or forgotten.
const ROOM: usize = 4_000;

impl<A: Allocator + Copy> FoundMoves<A> {
    /// None so far; so many are awaited.
    ///
    /// # Errors
    ///
    /// Where there is no memory.
    pub fn new(alloc: A, awaited: usize) -> Result<FoundMoves<A>, AllocError> {
        Ok(FoundMoves {
            moves: Vec::with_capacity(alloc, awaited)?,
            taken: 0,
            steps: Vec::new(alloc),
            room: ROOM,
        })
    }

    /// Notes a move in this gap, and the place of the one before it. Its own place.
    ///
    /// # Errors
    ///
    /// Where there is no memory.
    pub fn note(
        &mut self,
        before: Option<usize>,
        gap: usize,
        next: Move,
    ) -> Result<usize, AllocError> {
        let place = self.steps.len();
        self.steps.push(Step { before, gap, next })?;
        Ok(place)
    }

    /// Whether it is time to settle the steps, where so many branches lead on.
    pub fn is_long(&self, branches: usize) -> bool {
        self.steps.len() >= self.room || (branches == 1 && self.steps.len() >= ROOM)
    }

    /// Forgets the steps that led to none of these places, and gives the places of those that stay. Where there is one place alone, its steps are decided.
    ///
    /// # Errors
    ///
    /// Where there is no memory.
    pub fn settle(&mut self, alloc: A, lasts: &mut [Option<usize>]) -> Result<(), AllocError> {
        let marks = self.marks(alloc, lasts)?;
        let places = self.keep(alloc, &marks)?;
        if lasts.len() == 1 {
            self.decide()?;
            put_at(lasts, 0, None);
        } else {
            for index in 0..lasts.len() {
                let place = lasts.get(index).copied().unwrap_or(None);
                put_at(lasts, index, place.and_then(|old| places.get(old).copied()));
            }
        }
        self.room = self.steps.len().saturating_mul(2).saturating_add(ROOM);
        Ok(())
    }

    // Which steps lead to these places.
    fn marks(&self, alloc: A, lasts: &[Option<usize>]) -> Result<Vec<bool, A>, AllocError> {
        let mut marks = vec![in alloc; false; self.steps.len()]?;
        for last in lasts {
            let mut place = *last;
            for _ in 0..self.steps.len() {
                let Some(at) = place else {
                    break;
                };
                if marks.get(at).copied().unwrap_or(true) {
                    break;
                }
                put_at(&mut marks, at, true);
                place = self.before(at);
            }
        }
        Ok(marks)
    }

    // The place of the step before the one at this place.
    fn before(&self, place: usize) -> Option<usize> {
        match self.steps.get(place) {
            Some(step) => step.before,
            None => None,
        }
    }

    // Forgets the steps that are not marked. The new place of each other one, by its old place.
    fn keep(&mut self, alloc: A, marks: &[bool]) -> Result<Vec<usize, A>, AllocError> {
        let mut places: Vec<usize, A> = Vec::with_capacity(alloc, self.steps.len())?;
        let mut steps: Vec<Step, A> = Vec::new(alloc);
        for (step, mark) in self.steps.iter().zip(marks) {
            places.push(steps.len())?;
            if *mark {
                let before = match step.before {
                    Some(at) => places.get(at).copied(),
                    None => None,
                };
                steps.push(Step {
                    before,
                    gap: step.gap,
                    next: step.next,
                })?;
            }
        }
        self.steps = steps;
        Ok(places)
    }

    // Decides the steps, which follow each other.
    fn decide(&mut self) -> Result<(), AllocError> {
        for step in self.steps.iter() {
            for _ in self.taken..step.gap {
                self.moves.push(Move::Event)?;
            }
            self.taken = self.taken.max(step.gap);
            self.moves.push(step.next)?;
        }
        self.steps.clear();
        Ok(())
    }

    /// All moves to the step at this place, and the rest of so many events.
    ///
    /// # Errors
    ///
    /// Where there is no memory.
    pub fn finish(
        mut self,
        alloc: A,
        last: Option<usize>,
        events: usize,
    ) -> Result<Vec<Move, A>, AllocError> {
        let mut lasts = [last];
        self.settle(alloc, &mut lasts)?;
        let taken = self.taken;
        let mut moves = self.moves;
        for _ in taken..events {
            moves.push(Move::Event)?;
        }
        Ok(moves)
    }
}
