//! What a call gets whose reply was not recorded. Where it has an effect, the queue leaves it one reply.
ghost use Rattle.std.specs.Prelude.{◌≡◌, ℕ, Some};
ghost use Rattle.queue_steps.specs.declared.model.Call.TheVariants as call;
ghost use Rattle.queue_steps.specs.declared.model.Reply.{Reply as SpecReply};
ghost use Rattle.history_check.specs.Levels.{Acts};

use crate::queue::Queue;
use queue_steps::errors::{ForcePushError, PushError};
use queue_steps::model::{Call, Reply};
use std::alloc::Allocator;

impl<A: Allocator> Queue<A> {
    /// The one reply of the call with an effect here, if there is one.
    pub fn acting_reply(&self, call: Call<u64>) -> Option<Reply<u64>>
        ensures { (r : SpecReply ℕ) → Acts call r self.now → result ≡ Some r }
    {
        match call {
            Call::Push(value) => Some(self.acting_push(value)),
            Call::ForcePush(value) => Some(self.acting_force_push(value)),
            Call::Pop => Some(Reply::Pop(Ok(self.front_or_zero()))),
            Call::Close => Some(Reply::Close(true)),
            Call::IsClosed | Call::IsEmpty | Call::IsFull | Call::Len | Call::Capacity => None,
        }
    }

    // The one reply of a push with an effect.
    fn acting_push(&self, value: u64) -> Reply<u64>
        ensures { (r : SpecReply ℕ) → Acts (call.Push value) r self.now → result ≡ r }
    {
        if self.is_below() {
            Reply::Push(Ok(()))
        } else {
            Reply::Push(Err(PushError::Closed(value)))
        }
    }

    // The one reply of a forced push with an effect.
    fn acting_force_push(&self, value: u64) -> Reply<u64>
        ensures { (r : SpecReply ℕ) → Acts (call.ForcePush value) r self.now → result ≡ r }
    {
        if !self.is_below() {
            return Reply::ForcePush(Err(ForcePushError::Closed(value)));
        }
        if self.is_full() {
            Reply::ForcePush(Ok(Some(self.front_or_zero())))
        } else {
            Reply::ForcePush(Ok(None))
        }
    }
}
