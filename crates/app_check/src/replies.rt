//! Replies as they are read.
ghost use Rattle.std.specs.Prelude.{◌++◌};
ghost use Rattle.std.specs.Fmt.{decimal};
ghost use Rattle.queue_steps.specs.declared.model.Reply.TheVariants as reply;
ghost use Rattle.app_text.specs.Reading.{IsReading, IsWord};
ghost use Rattle.app_text.specs.Replies.{reply_text, truth_text};
ghost use Rattle.app_check.specs.Replies.{IsCapacityTold, IsForcePushTold, IsPopTold, IsPushTold, IsReplyOf, IsTruthTold};

use app_text::numbers::parse_number;
use queue_steps::errors::{ForcePushError, PopError, PushError};
use queue_steps::model::{Call, Reply};

/// The reply of the call that has this text, if one has it.
pub fn read_reply(call: Call<u64>, text: &[u8]) -> Option<Reply<u64>>
    ensures { IsReading (IsReplyOf call) reply_text text.now result }
{
    match call {
        Call::Push(_) => Some(Reply::Push(read_push(text)?)),
        Call::ForcePush(_) => Some(Reply::ForcePush(read_force_push(text)?)),
        Call::Pop => Some(Reply::Pop(read_pop(text)?)),
        Call::Close => Some(Reply::Close(read_truth(text)?)),
        Call::IsClosed => Some(Reply::IsClosed(read_truth(text)?)),
        Call::IsEmpty => Some(Reply::IsEmpty(read_truth(text)?)),
        Call::IsFull => Some(Reply::IsFull(read_truth(text)?)),
        Call::Len => Some(Reply::Len(parse_number(text)? as usize)),
        Call::Capacity => Some(Reply::Capacity(read_capacity(text)?)),
    }
}

// The number behind these words, if the text is that.
fn number_behind(words: &[u8], text: &[u8]) -> Option<u64>
    ensures { IsReading IsWord (λ n. words.now ++ decimal n) text.now result }
{
    parse_number(text.strip_prefix(words)?)
}

// What a push was told.
fn read_push(text: &[u8]) -> Option<Result<(), PushError<u64>>>
    ensures { IsReading IsPushTold (λ told. reply_text (reply.Push told)) text.now result }
{
    if text == b"ok".as_slice() {
        return Some(Ok(()));
    }
    if let Some(value) = number_behind(b"full ".as_slice(), text) {
        return Some(Err(PushError::Full(value)));
    }
    if let Some(value) = number_behind(b"closed ".as_slice(), text) {
        return Some(Err(PushError::Closed(value)));
    }
    let value = number_behind(b"no memory ".as_slice(), text)?;
    Some(Err(PushError::NoMemory(value)))
}

// What a forced push was told.
fn read_force_push(text: &[u8]) -> Option<Result<Option<u64>, ForcePushError<u64>>>
    ensures { IsReading IsForcePushTold (λ told. reply_text (reply.ForcePush told)) text.now result }
{
    if text == b"ok".as_slice() {
        return Some(Ok(None));
    }
    if let Some(old) = number_behind(b"displaced ".as_slice(), text) {
        return Some(Ok(Some(old)));
    }
    if let Some(value) = number_behind(b"closed ".as_slice(), text) {
        return Some(Err(ForcePushError::Closed(value)));
    }
    let value = number_behind(b"no memory ".as_slice(), text)?;
    Some(Err(ForcePushError::NoMemory(value)))
}

// What a pop was told.
fn read_pop(text: &[u8]) -> Option<Result<u64, PopError>>
    ensures { IsReading IsPopTold (λ told. reply_text (reply.Pop told)) text.now result }
{
    if text == b"empty".as_slice() {
        return Some(Err(PopError::Empty));
    }
    if text == b"closed".as_slice() {
        return Some(Err(PopError::Closed));
    }
    let value = number_behind(b"item ".as_slice(), text)?;
    Some(Ok(value))
}

// The capacity that was told.
fn read_capacity(text: &[u8]) -> Option<Option<usize>>
    ensures { IsReading IsCapacityTold (λ told. reply_text (reply.Capacity told)) text.now result }
{
    if text == b"none".as_slice() {
        return Some(None);
    }
    let cap = parse_number(text)?;
    Some(Some(cap as usize))
}

// The truth value of this word.
fn read_truth(text: &[u8]) -> Option<bool>
    ensures { IsReading IsTruthTold truth_text text.now result }
{
    if text == b"true".as_slice() {
        return Some(true);
    }
    if text == b"false".as_slice() {
        return Some(false);
    }
    None
}
