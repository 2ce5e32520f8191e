//! Some values of a history that may have no order by themselves.
use std::alloc::{AllocError, Allocator};

/// Values of a history. What remains of it where these alone are kept is thought to have no order.
#[derive(Drop)]
pub struct Part<A: Allocator> {
    /// The values that are kept.
    pub kept: Vec<u64, A>,
    /// Whether calls that find nothing, or closed, are kept too.
    pub looks: bool,
    /// How many events come before the one at which it shows.
    pub before: usize,
}

impl<A: Allocator + Copy> Part<A> {
    /// No value.
    pub fn new(alloc: A, looks: bool, before: usize) -> Part<A> {
        Part {
            kept: Vec::new(alloc),
            looks,
            before,
        }
    }

    /// One value more.
    ///
    /// # Errors
    ///
    /// Where there is no memory.
    pub fn with(mut self, item: u64) -> Result<Part<A>, AllocError> {
        self.kept.push(item)?;
        Ok(self)
    }
}

/// The part that shows first.
pub fn earlier<A: Allocator>(one: Option<Part<A>>, other: Option<Part<A>>) -> Option<Part<A>> {
    match (one, other) {
        (Some(first), Some(second)) => {
            if second.before < first.before {
                Some(second)
            } else {
                Some(first)
            }
        }
        (Some(first), None) => Some(first),
        (None, second) => second,
    }
}
