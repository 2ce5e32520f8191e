//! How replies are printed.
ghost use Rattle.std.specs.Prelude.{◌≡◌, ◌++◌, Some};
ghost use Rattle.queue_steps.specs.declared.model.Reply.TheVariants as reply;
ghost use Rattle.app_text.specs.Replies.{reply_text, number_text, truth_text};

use queue_steps::errors::{ForcePushError, PopError, PushError};
use queue_steps::model::Reply;
use std::fmt;

/// A reply as it is printed.
#[derive(Clone, Copy)]
pub struct ReplyText(pub Reply<u64>);

impl ReplyText {
    /// The words of a reply, and the number behind them, if it has one.
    pub fn parts(self) -> (&'static str, Option<u64>)
        ensures { reply_text self.0 ≡ result.0.now ++ number_text result.1 }
    {
        match self.0 {
            Reply::Push(result) => push_parts(result),
            Reply::ForcePush(result) => force_push_parts(result),
            Reply::Pop(result) => pop_parts(result),
            Reply::Close(answer)
            | Reply::IsClosed(answer)
            | Reply::IsEmpty(answer)
            | Reply::IsFull(answer) => (truth(answer), None),
            Reply::Len(count) | Reply::Capacity(Some(count)) => ("", Some(count as u64)),
            Reply::Capacity(None) => ("none", None),
        }
    }
}

// The parts of the reply of a push.
fn push_parts(told: Result<(), PushError<u64>>) -> (&'static str, Option<u64>)
    ensures { reply_text (reply.Push told) ≡ result.0.now ++ number_text result.1 }
{
    match told {
        Ok(()) => ("ok", None),
        Err(PushError::Full(value)) => ("full ", Some(value)),
        Err(PushError::Closed(value)) => ("closed ", Some(value)),
        Err(PushError::NoMemory(value)) => ("no memory ", Some(value)),
    }
}

// The same of a forced push.
fn force_push_parts(told: Result<Option<u64>, ForcePushError<u64>>) -> (&'static str, Option<u64>)
    ensures { reply_text (reply.ForcePush told) ≡ result.0.now ++ number_text result.1 }
{
    match told {
        Ok(None) => ("ok", None),
        Ok(Some(item)) => ("displaced ", Some(item)),
        Err(ForcePushError::Closed(value)) => ("closed ", Some(value)),
        Err(ForcePushError::NoMemory(value)) => ("no memory ", Some(value)),
    }
}

// The same of a pop.
fn pop_parts(told: Result<u64, PopError>) -> (&'static str, Option<u64>)
    ensures { reply_text (reply.Pop told) ≡ result.0.now ++ number_text result.1 }
{
    match told {
        Ok(item) => ("item ", Some(item)),
        Err(PopError::Empty) => ("empty", None),
        Err(PopError::Closed) => ("closed", None),
    }
}

impl fmt::Display for ReplyText {
    ghost output = { λ shown. Some (reply_text shown.0) };

    fn fmt<W: fmt::Write>(&self, f: &mut fmt::Formatter<W>) -> fmt::Result {
        match self.parts() {
            (words, None) => f.write_str(words),
            (words, Some(number)) => write!(f, "{words}{number}"),
        }
    }
}

// The word of a truth value.
fn truth(answer: bool) -> &'static str
    ensures { result.now ≡ truth_text answer }
{
    if answer { "true" } else { "false" }
}
