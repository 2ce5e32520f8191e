//! An outcome of a program, with a schedule that shows it.
use crate::outcome::Outcome;
use crate::schedule::Move;
use crate::search::figures::Figure;
use crate::sequence::Sequence;
use std::alloc::Allocator;

/// An outcome of a program, with a schedule that shows it.
#[derive(Drop)]
pub struct ShownOutcome<A: Allocator> {
    /// What the schedule ends with.
    pub outcome: Outcome<A>,
    /// The moves that lead there, behind the calls that come first.
    pub schedule: Sequence<Move, A>,
    /// What was counted of the outcome. Nothing shows that.
    pub figure: Figure<A>,
}
