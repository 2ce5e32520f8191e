//! A send that asks a gate before each operation of its push, so that a test can hold it half done.
ghost use Rattle.queue_steps.specs.declared.model.Call.TheVariants as call;
ghost use Rattle.queue_steps.specs.declared.model.Reply.TheVariants as reply;
ghost use Rattle.counted_channel.specs.Channel.{IsEndOf, ChannelCall};

use crate::ends::Channel;
use crate::sides::Sender;
use crate::waking::answer_of;
use call_driver::gate::Gate;
use concurrent_queue::{NullTestable, PushError};
use event_count::Look;
use std::sync::Wait;

impl<T, A: NullTestable> Channel<T, A> {
    /// Appends `value` where there is room, as [`Channel::try_send`] does. The gate is asked before each operation of its push, and may hold it there.
    ///
    /// # Errors
    ///
    /// Those of [`Channel::try_send`], each with the value.
    pub fn try_send_at<R: Wait, G: Gate>(
        &self,
        rt: &R,
        gate: &G,
        sender: &mut Sender<T>,
        value: T,
    ) -> Result<(), PushError<T>>
        requires is_end { IsEndOf sender.old self.now }
        ensures { ChannelCall sender.old (call.Push value) (reply.Push result) sender.new }
    {
        let party = &mut sender.party;
        answer_of(self.queue.push_at(rt, gate, party, value, Look::Awake))
    }
}
