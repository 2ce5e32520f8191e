//! Numbers by the places of a table's positions.
use crate::search::edges::NOWHERE;
use std::alloc::{AllocError, Allocator};

/// A list of so many times `NOWHERE`.
pub(crate) fn nowhere<A: Allocator>(alloc: A, count: usize) -> Result<Vec<usize, A>, AllocError> {
    vec![in alloc; NOWHERE; count]
}

/// The value at this place, or `NOWHERE`.
pub(crate) fn at(values: &[usize], place: usize) -> usize {
    values.get(place).copied().unwrap_or(NOWHERE)
}

/// Writes the value at this place, if it is there.
pub(crate) fn set(values: &mut [usize], place: usize, value: usize) {
    if let Some(known) = values.get_mut(place) {
        *known = value;
    }
}
