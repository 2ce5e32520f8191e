//! Calls and replies of stories, in the words of a script.
use crate::items::{Item, Items};
use app_text::lines::Line;
use app_text::replies::ReplyText;
use concurrent_queue::{
    ForcePushError, PopError, PushError, TryForcePushError, TryPopError, TryPushError,
};
use queue_steps::model::{Call, Reply};
use std::process::Abort;

/// What is answered: words, and the number after them, if there is one.
pub(crate) type Words = (&'static str, Option<u64>);

/// The call of this text. Asserts that it is one.
pub(crate) fn call_of(rt: &impl Abort, items: &Items, text: &str) -> Call<Item> {
    match Call::<u64>::parse(text.as_bytes()) {
        Some(Call::Push(number)) => Call::Push(items.item(rt, number)),
        Some(Call::ForcePush(number)) => Call::ForcePush(items.item(rt, number)),
        Some(Call::Pop) => Call::Pop,
        Some(Call::Close) => Call::Close,
        Some(Call::IsClosed) => Call::IsClosed,
        Some(Call::IsEmpty) => Call::IsEmpty,
        Some(Call::IsFull) => Call::IsFull,
        Some(Call::Len) => Call::Len,
        Some(Call::Capacity) => Call::Capacity,
        None => panic!(rt; "no call: {text}"),
    }
}

/// What a push answers that is tried.
pub(crate) fn push_words(answer: Result<(), TryPushError<Item>>) -> Words {
    match answer {
        Ok(()) => ("ok", None),
        Err(TryPushError::Full(item)) => ("full ", Some(item.number)),
        Err(TryPushError::Closed(item)) => ("closed ", Some(item.number)),
        Err(TryPushError::NoMemory(item)) => ("no memory ", Some(item.number)),
        Err(TryPushError::Busy(item)) => ("busy ", Some(item.number)),
    }
}

/// What a push by force answers that is tried.
pub(crate) fn force_words(answer: Result<Option<Item>, TryForcePushError<Item>>) -> Words {
    match answer {
        Ok(None) => ("ok", None),
        Ok(Some(item)) => ("displaced ", Some(item.number)),
        Err(TryForcePushError::Closed(item)) => ("closed ", Some(item.number)),
        Err(TryForcePushError::NoMemory(item)) => ("no memory ", Some(item.number)),
        Err(TryForcePushError::Busy(item)) => ("busy ", Some(item.number)),
    }
}

/// What a pop answers that is tried.
pub(crate) fn pop_words(answer: Result<Item, TryPopError>) -> Words {
    match answer {
        Ok(item) => ("item ", Some(item.number)),
        Err(TryPopError::Empty) => ("empty", None),
        Err(TryPopError::Closed) => ("closed", None),
        Err(TryPopError::Busy) => ("busy", None),
    }
}

/// A push's answer as that of one that is tried.
fn tried_push(answer: Result<(), PushError<Item>>) -> Result<(), TryPushError<Item>> {
    match answer {
        Ok(()) => Ok(()),
        Err(PushError::Full(item)) => Err(TryPushError::Full(item)),
        Err(PushError::Closed(item)) => Err(TryPushError::Closed(item)),
        Err(PushError::NoMemory(item)) => Err(TryPushError::NoMemory(item)),
    }
}

/// The same of a push by force.
fn tried_force(
    answer: Result<Option<Item>, ForcePushError<Item>>,
) -> Result<Option<Item>, TryForcePushError<Item>> {
    match answer {
        Ok(old) => Ok(old),
        Err(ForcePushError::Closed(item)) => Err(TryForcePushError::Closed(item)),
        Err(ForcePushError::NoMemory(item)) => Err(TryForcePushError::NoMemory(item)),
    }
}

/// The same of a pop.
fn tried_pop(answer: Result<Item, PopError>) -> Result<Item, TryPopError> {
    match answer {
        Ok(item) => Ok(item),
        Err(PopError::Empty) => Err(TryPopError::Empty),
        Err(PopError::Closed) => Err(TryPopError::Closed),
    }
}

/// What a call answers.
pub(crate) fn reply_words(reply: Reply<Item>) -> Words {
    let look = match reply {
        Reply::Push(answer) => return push_words(tried_push(answer)),
        Reply::ForcePush(answer) => return force_words(tried_force(answer)),
        Reply::Pop(answer) => return pop_words(tried_pop(answer)),
        Reply::Close(first) => Reply::Close(first),
        Reply::IsClosed(answer) => Reply::IsClosed(answer),
        Reply::IsEmpty(answer) => Reply::IsEmpty(answer),
        Reply::IsFull(answer) => Reply::IsFull(answer),
        Reply::Len(count) => Reply::Len(count),
        Reply::Capacity(cap) => Reply::Capacity(cap),
    };
    ReplyText(look).parts()
}
