//! A small program: calls that are made first, and the calls of each party.
ghost use Rattle.std.specs.Prelude.{◌≡◌, length, slice_get};
ghost use Rattle.machine_explore.specs.Positions.{calls_of};

use crate::sequence::Sequence;
use queue_steps::model::Call;
use std::alloc::Allocator;

/// Calls in their order.
pub type Calls<A> = Sequence<Call<u64>, A>;

/// The calls that party 0 makes first, alone, one after another; and then the calls of each party, in its own order.
#[derive(Drop)]
pub struct Program<A: Allocator> {
    /// What party 0 does first.
    pub before: Calls<A>,
    /// The calls of each party, by its number from 0.
    pub parties: Vec<Calls<A>, A>,
}

impl<A: Allocator> Program<A> {
    /// The call of this party behind so many others, if it has so many.
    pub fn call(&self, party: usize, behind: usize) -> Option<Call<u64>>
        ensures { result ≡ slice_get (calls_of self.now.parties.items party) behind }
    {
        match self.parties.get(party) {
            Some(calls) => calls.as_slice().get(behind).copied(),
            None => None,
        }
    }

    /// How many calls the party has.
    pub fn call_count(&self, party: usize) -> usize
        ensures { result ≡ length (calls_of self.now.parties.items party) }
    {
        match self.parties.get(party) {
            Some(calls) => calls.len(),
            None => 0,
        }
    }
}
