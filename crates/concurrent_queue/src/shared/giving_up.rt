//! A call on its way that is taken back, as long as it has had no effect.
ghost use Rattle.std.specs.Prelude.{◌≡◌, None, MatchResult};
ghost use Rattle.queue_steps.specs.Kinds.{call_value};
ghost use Rattle.concurrent_queue.specs.OneHeap.{IsOneHeap};
ghost use Rattle.concurrent_queue.specs.SawMore.{SawMore};
ghost use Rattle.concurrent_queue.specs.Shared.{IsPartyOf};

use super::pending::Pending;
use super::standing::{Standing, quit_here, quit_inside};
use crate::party::Party;
use crate::shared::ConcurrentQueue;
use std::alloc::Allocator;

impl<T, A: Allocator> ConcurrentQueue<T, A> {
    /// Takes a call back: its party, which may have seen more, and the value that a push carries. On a chain a spare block goes back to the allocator.
    ///
    /// # Errors
    ///
    /// The call, unchanged, where it is too late: it has had its effect, or on a chain it has laid the first block and is to show it.
    pub fn give_up(&self, pending: Pending<T, A>) -> Result<(Party<T>, Option<T>), Pending<T, A>>
        requires is_party { IsPartyOf pending.party self.now }
        requires heap { self.now.cap ≡ None → IsOneHeap A }
        ensures { MatchResult result (λ r. SawMore pending.party r.0 × (r.1 ≡ call_value pending.call)) (λ same. same ≡ pending) }
    {
        match self.standing(pending) {
            Standing::Slot(table, seat, left) => quit_here(table, seat, left),
            Standing::Ring(table, seat, left) => quit_here(table, seat, left),
            Standing::Chain(queue, asking, left) => quit_inside(queue, asking, left),
        }
    }
}
