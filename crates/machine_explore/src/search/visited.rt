//! The positions that the search has come to, each once.
use crate::position::Position;
use crate::search::faults::SearchFault;
use crate::search::places::Places;
use std::alloc::{AllocError, Allocator};

/// The positions that the search has come to, each once, in the order in which they were found.
#[derive(Drop)]
pub(crate) struct Visited<A: Allocator> {
    positions: Vec<Position<A>, A>,
    places: Places<A>,
    // How many there may be.
    most: usize,
}

impl<A: Allocator + Copy> Visited<A> {
    /// None so far, and so many at most.
    pub(crate) fn new(alloc: A, most: usize) -> Result<Self, AllocError> {
        Ok(Visited {
            positions: Vec::new(alloc),
            places: Places::new(alloc)?,
            most,
        })
    }

    /// The place of the position, which is put behind the others where it is new.
    pub(crate) fn place_of(
        &mut self,
        alloc: A,
        position: Position<A>,
    ) -> Result<usize, SearchFault> {
        let fingerprint = position.fingerprint();
        match self.find(fingerprint, &position) {
            Some(place) => Ok(place),
            None => self.add(alloc, fingerprint, position),
        }
    }

    // Puts a position behind the others, and tells its place.
    fn add(
        &mut self,
        alloc: A,
        fingerprint: u64,
        position: Position<A>,
    ) -> Result<usize, SearchFault> {
        let place = self.positions.len();
        if place >= self.most {
            return Err(SearchFault::TooManyStates);
        }
        self.places.add(alloc, fingerprint)?;
        self.positions.push(position)?;
        Ok(place)
    }

    /// How many there are.
    pub(crate) fn len(&self) -> usize {
        self.positions.len()
    }

    /// The position at this place.
    pub(crate) fn get(&self, place: usize) -> Option<&Position<A>> {
        self.positions.get(place)
    }

    /// The positions in their order.
    pub(crate) fn into_positions(self) -> Vec<Position<A>, A> {
        self.positions
    }

    // The place of the position, if it is known.
    fn find(&self, fingerprint: u64, position: &Position<A>) -> Option<usize> {
        let mut next = self.places.last(fingerprint);
        for _ in 0..self.positions.len() {
            let place = next?;
            let link = self.places.link(place)?;
            if link.fingerprint == fingerprint && self.has_at(place, position) {
                return Some(place);
            }
            next = link.before;
        }
        None
    }

    // Whether the position stands at this place.
    fn has_at(&self, place: usize, position: &Position<A>) -> bool {
        match self.positions.get(place) {
            Some(other) => position.is_same(other),
            None => false,
        }
    }
}
