//! Where the ends of a shared chain lie.
use mem_blocks::item::Place;

/// The tail's end, with the link to the pushers' block, and the head's end, with the link to the poppers'.
#[derive(Drop)]
pub struct ChainEnds<T> {
    pub tail: Place<T>,
    pub head: Place<T>,
}
