//! Where the positions of a table lead.
use crate::check::{Edge, Table};
use queue_steps::steps::Local;
use std::alloc::Allocator;

/// What a link has where nothing is led to.
pub(crate) const NOWHERE: usize = usize::MAX;

/// A table of positions that so many parties share, each of which has a link from each position.
#[derive(Drop)]
pub(crate) struct Graph<'a, A: Allocator> {
    pub(crate) table: &'a Table<A>,
    pub(crate) parties: usize,
}

impl<'a, A: Allocator + Copy> Graph<'a, A> {
    /// How many positions there are.
    pub(crate) fn len(&self) -> usize {
        self.table.positions.len()
    }

    /// Whether the party is in a call at the position at this place.
    pub(crate) fn is_in_call(&self, place: usize, party: usize) -> bool {
        match self.table.positions.get(place) {
            Some(position) => position.is_in_call(party),
            None => false,
        }
    }

    /// Where the party's call stands at the position at this place, if it is in one.
    pub(crate) fn local(&self, place: usize, party: usize) -> Option<Local<usize>> {
        self.table.positions.get(place)?.local(party)
    }

    /// The place to which the party leads from the position at this place, if it goes on so.
    pub(crate) fn lead(&self, place: usize, party: usize, granted: bool) -> Option<usize> {
        let edge = self.edge(place, party)?;
        let to = if granted { edge.granted } else { edge.refused };
        if to < self.len() { Some(to) } else { None }
    }

    // The link of the party from the position at this place.
    fn edge(&self, place: usize, party: usize) -> Option<Edge> {
        let index = number_of(self.parties, place, party);
        self.table.edges.get(index).copied()
    }

    /// How many moves there may be from a position: for each party one that is granted what it asks for, and one that is refused it.
    pub(crate) fn moves(&self) -> usize {
        self.parties.saturating_mul(2)
    }

    /// Whether the party goes on from the position at this place by a beginning of a call that has steps.
    pub(crate) fn begins(&self, place: usize, party: usize) -> bool {
        match self.lead(place, party, true) {
            Some(next) => !self.is_in_call(place, party) && self.is_in_call(next, party),
            None => false,
        }
    }

    /// The party of the move of this number.
    pub(crate) fn party_of(&self, number: usize) -> usize {
        number / 2
    }

    /// The place to which the move of this number leads from the position at this place, if there is one and no other party is in a call there.
    pub(crate) fn lead_alone(&self, place: usize, number: usize) -> Option<usize> {
        let party = number / 2;
        if self.is_alone(place, party) {
            self.lead(place, party, number % 2 == 0)
        } else {
            None
        }
    }

    // Whether no other party is in a call at the position at this place.
    fn is_alone(&self, place: usize, party: usize) -> bool {
        for other in 0..self.parties {
            if other != party && self.is_in_call(place, other) {
                return false;
            }
        }
        true
    }

    /// The place to which the move of this number leads from the position at this place, if there is one. A beginning belongs to the call's first step.
    pub(crate) fn lead_by(&self, place: usize, number: usize) -> Option<usize> {
        let party = number / 2;
        let granted = number % 2 == 0;
        if self.begins(place, party) {
            return self.lead(self.lead(place, party, true)?, party, granted);
        }
        self.lead(place, party, granted)
    }
}

/// The number of a pair of a place and one of so many parties, where the pairs of the first place come first.
pub(crate) fn number_of(parties: usize, place: usize, party: usize) -> usize {
    place.saturating_mul(parties).saturating_add(party)
}
