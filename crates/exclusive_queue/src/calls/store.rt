//! The calls of a queue with one owner, however it keeps its items.
ghost use Rattle.std.specs.Prelude.{◌≡◌, length};
ghost use Rattle.queue_steps.specs.Kinds.{call_kind};
ghost use Rattle.queue_steps.specs.State.{is_full};
ghost use Rattle.queue_steps.specs.Replies.{is_empty};
ghost use Rattle.queue_steps.specs.Sequential.{Sequential};
ghost use Rattle.queue_steps.specs.declared.model.Call.TheVariants as call;
ghost use Rattle.queue_steps.specs.declared.model.Reply.TheVariants as reply;

use crate::calls::sealed::Sealed;
use queue_steps::errors::{ForcePushError, PopError, PushError};
use queue_steps::fill_reply::{Closes, Displaces, FillReply, Pops, Pushes};
use queue_steps::model::{Call, Reply};

/// Runs a call to its end, and puts its reply together.
#[inline(always)]
fn reply_to<T, S: Sealed<T>, W: FillReply>(store: &mut S, call: Call<T>) -> Reply<T>
    requires idle { S.idle store.old }
    requires its { call_kind call ≡ W.call }
    ensures idle { S.idle store.new }
    ensures sequential { Sequential (S.owned store.old) call result (S.owned store.new) }
{
    let (call, mut carried) = call.split();
    let reply = store.settle::<W>(call, &mut carried);
    W::fill(reply, carried)
}

/// Runs any call to its end, and puts its reply together.
pub fn answer<T, S: Sealed<T>>(store: &mut S, call: Call<T>) -> Reply<T>
    requires { S.idle store.old }
    ensures idle { S.idle store.new }
    ensures sequential { Sequential (S.owned store.old) call result (S.owned store.new) }
{
    let (call, mut carried) = call.split();
    let reply = store.settle::<()>(call, &mut carried);
    Reply::fill(reply, carried)
}

/// A queue with one owner, whichever way it keeps its items: `Exclusive`, and each of its three forms.
///
/// A contract sees the abstract queue and the number of blocks that it holds, `owned`, and whether no call is on its way, `idle`, which is so
/// before and after each call. Each call answers by the table of one owner, `Sequential`. What implements `Sealed` has this trait, and nothing else can.
pub trait Store<T>: Sealed<T> {
    /// Appends `value`.
    ///
    /// # Errors
    ///
    /// `Closed` with the value on a closed queue, `Full` with the value on a full one, `NoMemory` with the value where a block was asked for and refused. A queue that has accepted `LIMIT` items answers `Closed`, and is closed from then on.
    fn push(&mut self, value: T) -> Result<(), PushError<T>>
        requires { Self.idle self.old }
        ensures idle { Self.idle self.new }
        ensures sequential { Sequential (Self.owned self.old) (call.Push value) (reply.Push result) (Self.owned self.new) }
    {
        match reply_to::<T, Self, Pushes>(self, Call::Push(value)) {
            Reply::Push(result) => result,
            _ => unreachable!(),
        }
    }

    /// Appends `value`, and takes the front off and hands it out where the queue was full.
    ///
    /// # Errors
    ///
    /// `Closed` with the value on a closed queue, `NoMemory` with the value where a block was asked for and refused.
    fn force_push(&mut self, value: T) -> Result<Option<T>, ForcePushError<T>>
        requires { Self.idle self.old }
        ensures idle { Self.idle self.new }
        ensures sequential { Sequential (Self.owned self.old) (call.ForcePush value) (reply.ForcePush result) (Self.owned self.new) }
    {
        match reply_to::<T, Self, Displaces>(self, Call::ForcePush(value)) {
            Reply::ForcePush(result) => result,
            _ => unreachable!(),
        }
    }

    /// Takes the front off.
    ///
    /// # Errors
    ///
    /// On an empty queue `Empty`, or `Closed` if it is closed.
    fn pop(&mut self) -> Result<T, PopError>
        requires { Self.idle self.old }
        ensures idle { Self.idle self.new }
        ensures sequential { Sequential (Self.owned self.old) call.Pop (reply.Pop result) (Self.owned self.new) }
    {
        match reply_to::<T, Self, Pops>(self, Call::Pop) {
            Reply::Pop(result) => result,
            _ => unreachable!(),
        }
    }

    /// Closes the queue, and tells whether this call did it. The items stay.
    fn close(&mut self) -> bool
        requires { Self.idle self.old }
        ensures idle { Self.idle self.new }
        ensures sequential { Sequential (Self.owned self.old) call.Close (reply.Close result) (Self.owned self.new) }
    {
        match reply_to::<T, Self, Closes>(self, Call::Close) {
            Reply::Close(result) => result,
            _ => unreachable!(),
        }
    }

    /// Whether the queue is closed.
    fn is_closed(&self) -> bool
        requires { Self.idle self.now }
        ensures { result ≡ (Self.owned self.now).queue.closed }
    {
        match self.look(Call::IsClosed) {
            Reply::IsClosed(result) => result,
            _ => unreachable!(),
        }
    }

    /// Whether the queue has no item.
    fn is_empty(&self) -> bool
        requires { Self.idle self.now }
        ensures { result ≡ is_empty (Self.owned self.now).queue.items }
    {
        match self.look(Call::IsEmpty) {
            Reply::IsEmpty(result) => result,
            _ => unreachable!(),
        }
    }

    /// Whether the queue has as many items as its capacity.
    fn is_full(&self) -> bool
        requires { Self.idle self.now }
        ensures { result ≡ is_full (Self.owned self.now).queue }
    {
        match self.look(Call::IsFull) {
            Reply::IsFull(result) => result,
            _ => unreachable!(),
        }
    }

    /// The number of items.
    fn len(&self) -> usize
        requires { Self.idle self.now }
        ensures { result ≡ length (Self.owned self.now).queue.items }
    {
        match self.look(Call::Len) {
            Reply::Len(result) => result,
            _ => unreachable!(),
        }
    }

    /// The capacity in items, or none.
    fn capacity(&self) -> Option<usize>
        requires { Self.idle self.now }
        ensures { result ≡ (Self.owned self.now).queue.cap }
    {
        match self.look(Call::Capacity) {
            Reply::Capacity(result) => result,
            _ => unreachable!(),
        }
    }
}

impl<T, M: Sealed<T>> Store<T> for M {}
