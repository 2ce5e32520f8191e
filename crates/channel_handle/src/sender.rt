//! What a sender does.
ghost use Rattle.std.specs.Prelude.{Some, codes};
ghost use Rattle.queue_steps.specs.declared.model.Call.TheVariants as call;
ghost use Rattle.queue_steps.specs.declared.model.Reply.TheVariants as reply;
ghost use Rattle.counted_channel.specs.Channel.{ChannelCall, sent, force_sent};

use crate::handle::Sender;
use concurrent_queue::{NullTestable, PushError};
use counted_channel::SendError;
use std::fmt;
use std::sync::Wait;
use std::time::{Clock, Duration};

impl<T: Drop, A: NullTestable> Sender<T, A> {
    /// Appends `value`. It waits while the channel is full.
    ///
    /// # Errors
    ///
    /// `Closed` with the value on a closed channel, `NoMemory` with the value where a block was asked for and refused: that changes nothing.
    pub fn send<R: Wait>(&mut self, rt: &R, value: T) -> Result<(), SendError<T>>
        ensures { ChannelCall self.old (call.Push value) (sent result) self.new }
    {
        self.channel.send(rt, &mut self.owed.end, value)
    }

    /// Appends `value`. It waits while the channel is full, but for so long at most, by the clock of `rt`. A clock that cannot be read ends the wait.
    ///
    /// # Errors
    ///
    /// Those of `try_send`: `Full` where there was no room in that time.
    pub fn send_timeout<R: Wait + Clock>(
        &mut self,
        rt: &R,
        value: T,
        timeout: Duration,
    ) -> Result<(), PushError<T>>
        ensures { ChannelCall self.old (call.Push value) (reply.Push result) self.new }
    {
        self.channel
            .send_timeout(rt, &mut self.owed.end, value, timeout)
    }

    /// Appends `value` where there is room.
    ///
    /// # Errors
    ///
    /// Those of a push, each with the value. `Full` and `NoMemory` change nothing; a push that is answered `Closed` may have closed the channel, at its limit.
    pub fn try_send<R: Wait>(&mut self, rt: &R, value: T) -> Result<(), PushError<T>>
        ensures { ChannelCall self.old (call.Push value) (reply.Push result) self.new }
    {
        self.channel.try_send(rt, &mut self.owed.end, value)
    }

    /// Appends `value`, and takes the front off and hands it out where the channel was full.
    ///
    /// # Errors
    ///
    /// Those of `send`.
    pub fn force_send<R: Wait>(&mut self, rt: &R, value: T) -> Result<Option<T>, SendError<T>>
        ensures { ChannelCall self.old (call.ForcePush value) (force_sent result) self.new }
    {
        self.channel.force_send(rt, &mut self.owed.end, value)
    }
}

impl<T, A: NullTestable> fmt::Debug for Sender<T, A> {
    ghost debug_output = { λ _. Some (codes "Sender { .. }") };

    fn fmt<W: fmt::Write>(&self, f: &mut fmt::Formatter<W>) -> fmt::Result {
        f.pad("Sender { .. }")
    }
}
