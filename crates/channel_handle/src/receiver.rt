//! What a receiver does.
ghost use Rattle.std.specs.Prelude.{Some, codes};
ghost use Rattle.queue_steps.specs.declared.model.Call.TheVariants as call;
ghost use Rattle.queue_steps.specs.declared.model.Reply.TheVariants as reply;
ghost use Rattle.counted_channel.specs.Channel.{ChannelCall, received};

use crate::handle::Receiver;
use concurrent_queue::PopError;
use counted_channel::Disconnected;
use std::alloc::Allocator;
use std::fmt;
use std::sync::Wait;
use std::time::{Clock, Duration};

impl<T: Drop, A: Allocator> Receiver<T, A> {
    /// Takes the front off. It waits while the channel is open and empty.
    ///
    /// # Errors
    ///
    /// On a closed and empty channel.
    pub fn recv<R: Wait>(&mut self, rt: &R) -> Result<T, Disconnected>
        ensures { ChannelCall self.old call.Pop (received result) self.new }
    {
        self.channel.recv(rt, &mut self.owed.end)
    }

    /// Takes the front off. It waits while the channel is open and empty, but for so long at most, by the clock of `rt`. A clock that cannot be read ends the wait.
    ///
    /// # Errors
    ///
    /// Those of `try_recv`: `Empty` where nothing came in that time.
    pub fn recv_timeout<R: Wait + Clock>(
        &mut self,
        rt: &R,
        timeout: Duration,
    ) -> Result<T, PopError>
        ensures { ChannelCall self.old call.Pop (reply.Pop result) self.new }
    {
        self.channel.recv_timeout(rt, &mut self.owed.end, timeout)
    }

    /// Takes the front off where there is one.
    ///
    /// # Errors
    ///
    /// Those of a pop.
    pub fn try_recv<R: Wait>(&mut self, rt: &R) -> Result<T, PopError>
        ensures { ChannelCall self.old call.Pop (reply.Pop result) self.new }
    {
        self.channel.try_recv(rt, &mut self.owed.end)
    }
}

impl<T, A: Allocator> fmt::Debug for Receiver<T, A> {
    ghost debug_output = { λ _. Some (codes "Receiver { .. }") };

    fn fmt<W: fmt::Write>(&self, f: &mut fmt::Formatter<W>) -> fmt::Result {
        f.pad("Receiver { .. }")
    }
}
