//! Replies with their values, call by call.
//!
//! In a `Reply` the value lies at one place for a push and at another for a pop, and a value that may lie at either is copied word by word. So each call has a filling of its own, which knows the replies of that call alone.
ghost use Rattle.std.specs.Prelude.{◌≡◌, IsSome, Some};
ghost use Rattle.queue_steps.specs.Kinds.{call_of_reply, filled};
ghost use Rattle.queue_steps.specs.declared.model.Call.{Call as SpecCall};
ghost use Rattle.queue_steps.specs.declared.model.Call.TheVariants as call;

use crate::errors::{ForcePushError, PushError};
use crate::model::{Reply, ReplyKind};

/// One of the calls. Its type tells the driver which of the fast steps are its own.
pub trait FillReply {
    /// The call, without its value.
    ghost call: { SpecCall Unit };

    /// The reply of this kind with the value that the call ended with, which is there exactly where the kind tells of one.
    fn fill<T>(kind: ReplyKind, carried: Option<T>) -> Reply<T>
        requires fits { IsSome (filled kind carried) }
        requires its { call_of_reply kind ≡ call }
        ensures { filled kind carried ≡ Some result };
}

/// A call of `push`.
pub struct Pushes;

/// A call of `force_push`.
pub struct Displaces;

/// A call of `pop`.
pub struct Pops;

/// A call of `close`.
pub struct Closes;

impl FillReply for Pushes {
    ghost call = { call.Push tt };

    #[inline(always)]
    fn fill<T>(kind: ReplyKind, carried: Option<T>) -> Reply<T> {
        match (kind, carried) {
            (Reply::Push(Ok(())), None) => Reply::Push(Ok(())),
            (Reply::Push(Err(PushError::Full(()))), Some(value)) => Reply::Push(Err(PushError::Full(
                value,
            ))),
            (Reply::Push(Err(PushError::Closed(()))), Some(value)) => Reply::Push(Err(
                PushError::Closed(value),
            )),
            (Reply::Push(Err(PushError::NoMemory(()))), Some(value)) => Reply::Push(Err(
                PushError::NoMemory(value),
            )),
            _ => unreachable!(),
        }
    }
}

impl FillReply for Displaces {
    ghost call = { call.ForcePush tt };

    #[inline(always)]
    fn fill<T>(kind: ReplyKind, carried: Option<T>) -> Reply<T> {
        match (kind, carried) {
            (Reply::ForcePush(Ok(None)), None) => Reply::ForcePush(Ok(None)),
            (Reply::ForcePush(Ok(Some(()))), Some(old)) => Reply::ForcePush(Ok(Some(old))),
            (Reply::ForcePush(Err(ForcePushError::Closed(()))), Some(value)) => Reply::ForcePush(
                Err(ForcePushError::Closed(value)),
            ),
            (Reply::ForcePush(Err(ForcePushError::NoMemory(()))), Some(value)) => Reply::ForcePush(
                Err(ForcePushError::NoMemory(value)),
            ),
            _ => unreachable!(),
        }
    }
}

impl FillReply for Pops {
    ghost call = { call.Pop };

    #[inline(always)]
    fn fill<T>(kind: ReplyKind, carried: Option<T>) -> Reply<T> {
        match (kind, carried) {
            (Reply::Pop(Ok(())), Some(item)) => Reply::Pop(Ok(item)),
            (Reply::Pop(Err(why)), None) => Reply::Pop(Err(why)),
            _ => unreachable!(),
        }
    }
}

impl FillReply for Closes {
    ghost call = { call.Close };

    #[inline(always)]
    fn fill<T>(kind: ReplyKind, carried: Option<T>) -> Reply<T> {
        match (kind, carried) {
            (Reply::Close(first), None) => Reply::Close(first),
            _ => unreachable!(),
        }
    }
}
