//! Calls of a channel that wait for so long at most.
ghost use Rattle.queue_steps.specs.declared.model.Call.TheVariants as call;
ghost use Rattle.queue_steps.specs.declared.model.Reply.TheVariants as reply;
ghost use Rattle.counted_channel.specs.Channel.{IsEndOf, ChannelCall};

use crate::ends::Channel;
use crate::sides::{Receiver, Sender};
use crate::tries::{wait_to_pop, wait_to_push};
use concurrent_queue::{NullTestable, PopError, PushError};
use event_count::Until;
use std::alloc::Allocator;
use std::sync::Wait;
use std::time::{Clock, Duration};

impl<T, A: Allocator> Channel<T, A> {
    /// Appends `value`. It waits while the queue is full, but for so long at most, by the clock of `rt`. A clock that cannot be read ends the wait.
    ///
    /// # Errors
    ///
    /// Those of a push, each with the value: `Full` where there was no room in that time, `Closed`, and `NoMemory` where a block was asked for and refused. `Full` and
    /// `NoMemory` change nothing. One that is answered `Closed` has found the queue closed, or has closed it, where it has taken 2^62 items.
    pub fn send_timeout<R: Wait + Clock>(
        &self,
        rt: &R,
        sender: &mut Sender<T>,
        value: T,
        timeout: Duration,
    ) -> Result<(), PushError<T>>
    where
        A: NullTestable,
        requires is_end { IsEndOf sender.old self.now }
        ensures { ChannelCall sender.old (call.Push value) (reply.Push result) sender.new }
    {
        let until = Until::after(rt, timeout);
        let party = &mut sender.party;
        wait_to_push(&self.queue, rt, party, value, &until)
    }

    /// Takes the front off. It waits while the queue is open and empty, but for so long at most, by the clock of `rt`. A clock that cannot be read ends the wait.
    ///
    /// # Errors
    ///
    /// Those of a pop: `Empty` where nothing came in that time, and `Closed` on a closed and empty queue.
    pub fn recv_timeout<R: Wait + Clock>(
        &self,
        rt: &R,
        receiver: &mut Receiver<T>,
        timeout: Duration,
    ) -> Result<T, PopError>
        requires is_end { IsEndOf receiver.old self.now }
        ensures { ChannelCall receiver.old call.Pop (reply.Pop result) receiver.new }
    {
        let until = Until::after(rt, timeout);
        let party = &mut receiver.party;
        wait_to_pop(&self.queue, rt, party, &until)
    }
}
