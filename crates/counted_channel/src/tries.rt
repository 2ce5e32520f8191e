//! Calls of the queue that are tried again: to the party they are one call.
ghost use Rattle.std.specs.Prelude.{◌≡◌, Err};
ghost use Rattle.queue_steps.specs.declared.errors.PopError.TheVariants as pop;
ghost use Rattle.queue_steps.specs.declared.errors.PushError.TheVariants as push;
ghost use Rattle.queue_steps.specs.declared.model.Call.TheVariants as call;
ghost use Rattle.queue_steps.specs.declared.model.Reply.TheVariants as reply;
ghost use Rattle.concurrent_queue.specs.Shared.{IsPartyOf, Calls};
ghost use Rattle.counted_channel.specs.Channel.{sent, received};

use crate::calls::{Disconnected, Popped, Pushed, SendError, WaitedQueue};
use concurrent_queue::{NullTestable, Party, PopError, PushError};
use event_count::{Deadline, Never};
use std::alloc::Allocator;
use std::sync::Wait;

/// Pushes `value`, again and again while the queue is full, until the deadline at most. After a few tries it sleeps between them, until there may be room.
///
/// # Errors
///
/// Those of a push, each with the value: `Full` only after the deadline, as its clock says. No clause knows a clock: `late` says that a wait which is never given up is not answered `Full`.
pub(crate) fn wait_to_push<T, A: NullTestable, R: Wait, D: Deadline>(
    queue: &WaitedQueue<T, A>,
    rt: &R,
    party: &mut Party<T>,
    value: T,
    until: &D,
) -> Result<(), PushError<T>>
    requires { IsPartyOf party.old queue.now.queue }
    ensures called { Calls party.old (call.Push value) (reply.Push result) party.new }
    ensures late { (back : T) → result ≡ Err (push.Full back) → D.can_pass until.now }
{
    let mut patience = queue.patience_for_room();
    let mut value = value;
    for _ in rt.forever() {
        match queue.push(rt, party, value, patience.look()) {
            Pushed::Done(owed) => {
                owed.notify();
                return Ok(());
            }
            Pushed::Full(back, vain) => {
                if patience.wait_until(rt, vain, until) {
                    return Err(PushError::Full(back));
                }
                value = back;
            }
            Pushed::Closed(back, owed) => {
                owed.notify();
                return Err(PushError::Closed(back));
            }
            Pushed::NoMemory(back) => return Err(PushError::NoMemory(back)),
        }
    }
    unreachable!()
}

/// Goes on with a send that has found no room.
///
/// # Errors
///
/// Those of a send, each with the value.
#[cold]
#[inline(never)]
pub(crate) fn wait_to_send<T, A: NullTestable, R: Wait>(
    queue: &WaitedQueue<T, A>,
    rt: &R,
    party: &mut Party<T>,
    value: T,
) -> Result<(), SendError<T>>
    requires { IsPartyOf party.old queue.now.queue }
    ensures { Calls party.old (call.Push value) (sent result) party.new }
{
    match wait_to_push(queue, rt, party, value, &Never) {
        Ok(()) => Ok(()),
        Err(PushError::Closed(back)) => Err(SendError::Closed(back)),
        Err(PushError::NoMemory(back)) => Err(SendError::NoMemory(back)),
        Err(PushError::Full(_)) => unreachable!(),
    }
}

/// Pops, again and again while the queue is open and empty, until the deadline at most. After a few tries it sleeps between them, until there may be an item.
///
/// # Errors
///
/// Those of a pop: `Empty` only after the deadline, as its clock says. No clause knows a clock: `late` says that a wait which is never given up is not answered `Empty`.
pub(crate) fn wait_to_pop<T, A: Allocator, R: Wait, D: Deadline>(
    queue: &WaitedQueue<T, A>,
    rt: &R,
    party: &mut Party<T>,
    until: &D,
) -> Result<T, PopError>
    requires { IsPartyOf party.old queue.now.queue }
    ensures called { Calls party.old call.Pop (reply.Pop result) party.new }
    ensures late { result ≡ Err pop.Empty → D.can_pass until.now }
{
    let mut patience = queue.patience_for_items();
    for _ in rt.forever() {
        match queue.pop(rt, party, patience.look()) {
            Popped::Item(item, owed) => {
                owed.notify();
                return Ok(item);
            }
            Popped::Empty(vain) => {
                if patience.wait_until(rt, vain, until) {
                    return Err(PopError::Empty);
                }
            }
            Popped::Closed => return Err(PopError::Closed),
        }
    }
    unreachable!()
}

/// Goes on with a receive that has found no item.
///
/// # Errors
///
/// On a closed and empty queue.
#[cold]
#[inline(never)]
pub(crate) fn wait_to_recv<T, A: Allocator, R: Wait>(
    queue: &WaitedQueue<T, A>,
    rt: &R,
    party: &mut Party<T>,
) -> Result<T, Disconnected>
    requires { IsPartyOf party.old queue.now.queue }
    ensures { Calls party.old call.Pop (received result) party.new }
{
    match wait_to_pop(queue, rt, party, &Never) {
        Ok(item) => Ok(item),
        Err(PopError::Closed) => Err(Disconnected),
        Err(PopError::Empty) => unreachable!(),
    }
}
