//! What is to be explored: a program on a queue of one kind.
use crate::program::Program;
use queue_steps::steps::Kind;
use std::alloc::Allocator;

/// What is to be explored: a program on a queue of one kind.
#[derive(Drop)]
pub struct Problem<A: Allocator> {
    /// Which queue.
    pub kind: Kind,
    /// Whether each request for a block may also be refused.
    pub refuses: bool,
    /// What the parties do.
    pub program: Program<A>,
    /// How many states it may have.
    pub most_states: usize,
}
