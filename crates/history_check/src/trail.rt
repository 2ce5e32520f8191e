//! The moves that a search has tried, each with the one before it.
use crate::recorded::Move;
use std::alloc::{AllocError, Allocator};

// A move, and the place of the one before it.
#[derive(Clone, Copy)]
struct Node {
    before: Option<usize>,
    next: Move,
}

/// The moves that a search has tried, each with the one before it.
#[derive(Drop)]
pub struct Trail<A: Allocator> {
    nodes: Vec<Node, A>,
    // How many there may be before those that led nowhere are forgotten.
    room: usize,
}

/// How many moves are noted, at least, before those that led nowhere are forgotten.
const ROOM: usize = 1_000;

/// How many words a move takes up, about.
const WORDS_A_NODE: usize = 7;

impl<A: Allocator + Copy> Trail<A> {
    /// None so far.
    pub fn new(alloc: A) -> Trail<A> {
        Trail {
            nodes: Vec::new(alloc),
            room: ROOM,
        }
    }

    /// How many moves are noted.
    pub fn len(&self) -> usize {
        self.nodes.len()
    }

    /// How many words it takes up, about.
    pub fn words(&self) -> usize {
        self.nodes.len().saturating_mul(WORDS_A_NODE)
    }

    /// Whether it is time to forget the moves that led nowhere.
    pub fn is_long(&self) -> bool {
        self.nodes.len() >= self.room
    }

    /// Marks the moves up to the one at this place.
    pub fn mark(&self, marks: &mut [bool], last: Option<usize>) {
        let mut place = last;
        for _ in 0..self.nodes.len() {
            let Some(at) = place else {
                return;
            };
            let Some(node) = self.nodes.get(at).copied() else {
                return;
            };
            let Some(mark) = marks.get_mut(at) else {
                return;
            };
            if *mark {
                return;
            }
            *mark = true;
            place = node.before;
        }
    }

    /// Forgets the moves that are not marked. The new place of each other one, by its old place.
    ///
    /// # Errors
    ///
    /// Where there is no memory.
    pub fn keep(&mut self, alloc: A, marks: &[bool]) -> Result<Vec<usize, A>, AllocError> {
        let mut places: Vec<usize, A> = Vec::new(alloc);
        let mut nodes = Vec::new(alloc);
        for (node, mark) in self.nodes.iter().zip(marks) {
            places.push(nodes.len())?;
            if *mark {
                let before = match node.before {
                    Some(at) => places.get(at).copied(),
                    None => None,
                };
                nodes.push(Node {
                    before,
                    next: node.next,
                })?;
            }
        }
        self.room = nodes.len().saturating_mul(2).saturating_add(ROOM);
        self.nodes = nodes;
        Ok(places)
    }

    /// Notes a move, and the place of the one before it. Its own place.
    ///
    /// # Errors
    ///
    /// Where there is no memory.
    pub fn note(&mut self, before: Option<usize>, next: Move) -> Result<usize, AllocError> {
        let place = self.nodes.len();
        self.nodes.push(Node { before, next })?;
        Ok(place)
    }

    /// The moves up to the one at this place, the first one first.
    ///
    /// # Errors
    ///
    /// Where there is no memory.
    pub fn moves_to(&self, alloc: A, last: Option<usize>) -> Result<Vec<Move, A>, AllocError> {
        let mut moves = Vec::new(alloc);
        let mut place = last;
        for _ in 0..self.nodes.len() {
            let Some(at) = place else {
                break;
            };
            let Some(node) = self.nodes.get(at).copied() else {
                break;
            };
            moves.push(node.next)?;
            place = node.before;
        }
        moves.reverse();
        Ok(moves)
    }
}
