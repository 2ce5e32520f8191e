//! What ends that have ended have sent and received.
ghost use Rattle.std.specs.Prelude.{◌≡◌, [], ◌++◌, IfOk, IfErr};
ghost use Rattle.concurrent_queue.specs.Shared.{Finishes};
ghost use Rattle.channel_handle.specs.Left.{IsLeft};
ghost use Rattle.channel_account.specs.Told.{JoinsTold, SameItems, SawEnd};

use channel_handle::{Ended, Exclusive, Unfinished};
use std::alloc::{Allocator, Global};
use std::marker::Model;

/// The account of an end that has ended, or of several: what they have sent and received.
///
/// A contract sees the party that theirs have become, and the values, end by end.
#[derive(Drop)]
pub struct Account<T, A: Allocator = Global> {
    pub(crate) ended: Ended<T, A>,
}

impl<T, A: Allocator> Model for Account<T, A> {
    ghost use Rattle.channel_account.specs.Told.{Told, told};

    ghost Value = { Told T };

    ghost view = { λ a. told a.ended };
}

impl<T: Drop, A: Allocator> Account<T, A> {
    /// Makes one account of two of one channel.
    pub fn join(self, other: Self) -> Self
        requires { other.party.queue ≡ self.party.queue }
        ensures { JoinsTold self other result }
    {
        self.ended.show_view();
        other.ended.show_view();
        Account {
            ended: self.ended.join(other.ended),
        }
    }

    /// Ends the channel, and gives its queue with the values that were not received: each value that was sent has been received once, or is left. None is left where a receiver was answered `Disconnected`.
    ///
    /// # Errors
    ///
    /// What there is, unchanged, where another end or account is there, or one was dropped. No clause promises that there is none: who else has a share in the channel is in no contract.
    #[tactic(auto, using(crate::proofs::Settled::none_left))]
    pub fn finish(self) -> Result<Exclusive<T, A>, Unfinished<T, A>>
        ensures finishes { IfOk result (λ left. Finishes self.party left) }
        ensures once { IfOk result (λ left. SameItems self.sent (self.came ++ left.queue.items)) }
        ensures none { IfOk result (λ left. SawEnd self → left.queue.items ≡ []) }
        ensures left { IfErr result (IsLeft self.party) }
    {
        self.ended.show_view();
        match self.ended.finish() {
            Ok(left) => {
                left.show_sound();
                Ok(left)
            }
            Err(left) => Err(left),
        }
    }
}
