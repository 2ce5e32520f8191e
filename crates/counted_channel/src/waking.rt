//! Calls of the queue that do not wait for room or items. Each notifies who waits for what it did.
ghost use Rattle.std.specs.Prelude.{◌≡◌};
ghost use Rattle.event_count.specs.declared.patience.Look.TheVariants as look;
ghost use Rattle.queue_steps.specs.declared.model.Call.TheVariants as call;
ghost use Rattle.queue_steps.specs.declared.model.Reply.TheVariants as reply;
ghost use Rattle.concurrent_queue.specs.Shared.{IsPartyOf, Calls};
ghost use Rattle.counted_channel.specs.Channel.{force_sent};
ghost use Rattle.counted_channel.specs.QueueCalls.Calls.{pushed};
ghost use Rattle.counted_channel.specs.QueueCalls.Looks.{FullKeepsTicket};

use crate::calls::{ForcePushed, Popped, Pushed, SendError, WaitedQueue};
use concurrent_queue::{NullTestable, Party, PopError, PushError};
use event_count::Look;
use std::alloc::Allocator;
use std::sync::Wait;

/// Pushes. One that is answered `Closed` may have closed the queue.
pub(crate) fn push<T, A: NullTestable, R: Wait>(
    queue: &WaitedQueue<T, A>,
    rt: &R,
    party: &mut Party<T>,
    value: T,
) -> Result<(), PushError<T>>
    requires { IsPartyOf party.old queue.now.queue }
    ensures { Calls party.old (call.Push value) (reply.Push result) party.new }
{
    answer_of(queue.push(rt, party, value, Look::Awake))
}

/// The answer of a push that was made awake. It notifies who waits for what the push did.
#[inline(always)]
pub(crate) fn answer_of<T>(done: Pushed<'_, T>) -> Result<(), PushError<T>>
    requires awake { FullKeepsTicket look.Awake done }
    ensures { reply.Push result ≡ pushed done.entry }
{
    match done {
        Pushed::Done(owed) => {
            owed.notify();
            Ok(())
        }
        Pushed::Full(back, vain) => {
            vain.end();
            Err(PushError::Full(back))
        }
        Pushed::Closed(back, owed) => {
            owed.notify();
            Err(PushError::Closed(back))
        }
        Pushed::NoMemory(back) => Err(PushError::NoMemory(back)),
    }
}

/// Pushes by force. One that is answered `Closed` may have closed the queue.
pub(crate) fn force_push<T, A: NullTestable, R: Wait>(
    queue: &WaitedQueue<T, A>,
    rt: &R,
    party: &mut Party<T>,
    value: T,
) -> Result<Option<T>, SendError<T>>
    requires { IsPartyOf party.old queue.now.queue }
    ensures { Calls party.old (call.ForcePush value) (force_sent result) party.new }
{
    match queue.force_push(rt, party, value) {
        ForcePushed::Done(displaced, owed) => {
            owed.notify();
            Ok(displaced)
        }
        ForcePushed::Closed(back, owed) => {
            owed.notify();
            Err(SendError::Closed(back))
        }
        ForcePushed::NoMemory(back) => Err(SendError::NoMemory(back)),
    }
}

/// Pops. Nobody waits for room where the queue has no limit.
pub(crate) fn pop<T, A: Allocator, R: Wait>(
    queue: &WaitedQueue<T, A>,
    rt: &R,
    party: &mut Party<T>,
) -> Result<T, PopError>
    requires { IsPartyOf party.old queue.now.queue }
    ensures { Calls party.old call.Pop (reply.Pop result) party.new }
{
    match queue.pop(rt, party, Look::Awake) {
        Popped::Item(item, owed) => {
            owed.notify();
            Ok(item)
        }
        Popped::Empty(vain) => {
            vain.end();
            Err(PopError::Empty)
        }
        Popped::Closed => Err(PopError::Closed),
    }
}

/// Closes the queue, and returns whether it was open.
pub(crate) fn close<T, A: Allocator>(queue: &WaitedQueue<T, A>, party: &mut Party<T>) -> bool
    requires { IsPartyOf party.old queue.now.queue }
    ensures { Calls party.old call.Close (reply.Close result) party.new }
{
    let (closed, owed) = queue.close(party);
    owed.notify();
    closed
}
