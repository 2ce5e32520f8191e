//! The calls of a queue, their replies and their effects, of which the abstract queue in `specs/` speaks.
ghost use Rattle.std.specs.Prelude.{◌≡◌, IsSome};
ghost use Rattle.queue_steps.specs.Kinds.{call_kind, call_value, filled};
ghost use Rattle.queue_steps.specs.Looks.{is_wait_free};

use crate::errors::{ForcePushError, PopError, PushError};

/// A call, with the value that it carries.
#[derive(Clone, Copy, Debug, Drop, PartialEq)]
pub enum Call<T> {
    /// Appends the value where there is room.
    Push(T),
    /// Appends the value, and takes the front off where there is no room.
    ForcePush(T),
    /// Takes the front off.
    Pop,
    /// Closes the queue.
    Close,
    /// Asks whether the queue is closed.
    IsClosed,
    /// Asks whether the queue has no item.
    IsEmpty,
    /// Asks whether the queue has as many items as its capacity.
    IsFull,
    /// Asks for the number of items.
    Len,
    /// Asks for the capacity.
    Capacity,
}

/// What a call answers: the variant of the call, with the result of that call.
#[derive(Clone, Copy, Debug, Drop, PartialEq)]
pub enum Reply<T> {
    Push(Result<(), PushError<T>>),
    ForcePush(Result<Option<T>, ForcePushError<T>>),
    Pop(Result<T, PopError>),
    Close(bool),
    IsClosed(bool),
    IsEmpty(bool),
    IsFull(bool),
    Len(usize),
    Capacity(Option<usize>),
}

/// What a call does to the queue, at one of its steps.
#[derive(Clone, Copy, Debug, Drop, PartialEq)]
pub enum Effect<T> {
    /// The item is put at the end of the list.
    Append(T),
    /// The item, the front, is taken off.
    Take(T),
    /// The first item, alone in a queue of one slot, gives way to the second.
    Replace(T, T),
    /// The first item, the front of a full queue, is taken off; the second is then on its way in.
    Front(T, T),
    /// The item on its way in is put at the end of the list.
    Arrive,
    /// The queue is closed by a call of `close`.
    Close,
    /// The queue, having accepted all that it ever will, closes itself.
    SelfClose,
}

/// A call without its value.
pub type CallKind = Call<()>;

/// A reply without its values.
pub type ReplyKind = Reply<()>;

impl<T> Call<T> {
    /// The call without its value, and the value.
    #[inline(always)]
    pub fn split(self) -> (CallKind, Option<T>)
        ensures { result ≡ (call_kind self, call_value self) }
    {
        match self {
            Call::Push(value) => (Call::Push(()), Some(value)),
            Call::ForcePush(value) => (Call::ForcePush(()), Some(value)),
            Call::Pop => (Call::Pop, None),
            Call::Close => (Call::Close, None),
            Call::IsClosed => (Call::IsClosed, None),
            Call::IsEmpty => (Call::IsEmpty, None),
            Call::IsFull => (Call::IsFull, None),
            Call::Len => (Call::Len, None),
            Call::Capacity => (Call::Capacity, None),
        }
    }

    /// Whether the call ends by its second step, whatever other parties do in between.
    pub fn is_wait_free(&self) -> bool
        ensures { result ≡ is_wait_free self.now }
    {
        match self {
            Call::Close | Call::IsClosed | Call::IsEmpty | Call::IsFull => true,
            Call::Push(_) | Call::ForcePush(_) | Call::Pop | Call::Len | Call::Capacity => false,
        }
    }
}

impl<T> Reply<T> {
    /// The reply of this kind with the value that the call ended with, which is there exactly where the kind tells of one.
    // Each case is here, and none is handed to a `FillReply`: handed on, a value of 64 bytes is copied, which takes 36 to 80 instructions a pair more.
    #[inline(always)]
    pub fn fill(kind: ReplyKind, carried: Option<T>) -> Reply<T>
        requires fits { IsSome (filled kind carried) }
        ensures { filled kind carried ≡ Some result }
    {
        match (kind, carried) {
            (Reply::Push(Ok(())), None) => Reply::Push(Ok(())),
            (Reply::Push(Err(PushError::Full(()))), Some(value)) => Reply::Push(Err(PushError::Full(
                value,
            ))),
            (Reply::Push(Err(PushError::Closed(()))), Some(value)) => Reply::Push(Err(
                PushError::Closed(value),
            )),
            (Reply::Push(Err(PushError::NoMemory(()))), Some(value)) => Reply::Push(Err(
                PushError::NoMemory(value),
            )),
            (Reply::ForcePush(Ok(None)), None) => Reply::ForcePush(Ok(None)),
            (Reply::ForcePush(Ok(Some(()))), Some(old)) => Reply::ForcePush(Ok(Some(old))),
            (Reply::ForcePush(Err(ForcePushError::Closed(()))), Some(value)) => Reply::ForcePush(
                Err(ForcePushError::Closed(value)),
            ),
            (Reply::ForcePush(Err(ForcePushError::NoMemory(()))), Some(value)) => Reply::ForcePush(
                Err(ForcePushError::NoMemory(value)),
            ),
            (Reply::Pop(Ok(())), Some(item)) => Reply::Pop(Ok(item)),
            (Reply::Pop(Err(why)), None) => Reply::Pop(Err(why)),
            (Reply::Close(first), None) => Reply::Close(first),
            (Reply::IsClosed(answer), None) => Reply::IsClosed(answer),
            (Reply::IsEmpty(answer), None) => Reply::IsEmpty(answer),
            (Reply::IsFull(answer), None) => Reply::IsFull(answer),
            (Reply::Len(len), None) => Reply::Len(len),
            (Reply::Capacity(cap), None) => Reply::Capacity(cap),
            _ => unreachable!(),
        }
    }
}
