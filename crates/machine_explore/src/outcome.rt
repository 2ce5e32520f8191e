//! What a run of a program ends with.
ghost use Rattle.std.specs.Prelude.{◌≡◌, ℕ, true};
ghost use Rattle.machine_explore.specs.Positions.{Outcome as Ends};

use crate::progress::are_same;
use crate::sequence::Sequence;
use queue_steps::model::Reply;
use std::alloc::Allocator;
use std::marker::Model;

/// The replies of each party in their order, and the items that are left, front first.
#[derive(Drop)]
pub struct Outcome<A: Allocator> {
    pub(crate) replies: Vec<Sequence<Reply<u64>, A>, A>,
    pub(crate) left: Vec<u64, A>,
}

impl<A: Allocator> Model for Outcome<A> {
    ghost Value = { Ends ℕ };

    ghost view = { λ o. record { replies = o.replies.items; left = o.left.items } };
}

impl<A: Allocator> Outcome<A> {
    /// The replies of each party, by its number.
    pub fn replies(&self) -> &[Sequence<Reply<u64>, A>]
        ensures { result.now ≡ self.now.replies }
    {
        self.replies.as_slice()
    }

    /// The items that are left, front first.
    pub fn left(&self) -> &[u64]
        ensures { result.now ≡ self.now.left }
    {
        self.left.as_slice()
    }

    /// Whether it is the same as the other.
    pub fn is_same(&self, other: &Outcome<A>) -> bool
        ensures { result ≡ true → self.now ≡ other.now }
    {
        self.left == other.left && have_same_replies(&self.replies, &other.replies)
    }
}

// Whether the parties have the same replies.
fn have_same_replies<A: Allocator>(
    parties: &[Sequence<Reply<u64>, A>],
    others: &[Sequence<Reply<u64>, A>],
) -> bool
    ensures { result ≡ true → parties.now ≡ others.now }
{
    if parties.len() != others.len() {
        return false;
    }
    for (index, replies) in parties.iter().enumerate() {
        if !are_same(replies.as_slice(), others[index].as_slice()) {
            return false;
        }
    }
    true
}
