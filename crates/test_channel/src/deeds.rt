//! What an end of a channel does, by a word for each call, and what it is answered, as that is printed for debugging.
ghost use Rattle.counted_channel.specs.Channel.{IsEndOf};

use crate::asserts::is;
use crate::host::Host;
use channel_handle::{Handle, PopError, PushError, Receiver, Sender};
use counted_channel::{Channel, ChannelEnd};
use std::alloc::AllocGlobal;
use std::fmt::Debug;
use std::process::Abort;
use std::sync::Wait;
use std::time::{Duration, Instant};

/// What is sent where no number is told.
const ITEM: u64 = 7;

/// An end of either side.
#[derive(Drop)]
pub(crate) enum AnyEnd {
    Sends(Sender<u64>),
    Receives(Receiver<u64>),
}

impl AnyEnd {
    /// Makes the call of this word, and gives the answer as it is printed for debugging. Asserts that its side has such a call.
    pub(crate) fn calls<R: Host>(&mut self, rt: &R, word: &str, number: u64) -> String {
        match self {
            AnyEnd::Sends(sender) => sends(rt, sender, word, number),
            AnyEnd::Receives(receiver) => receives(rt, receiver, word, number),
        }
    }

    /// One more end of its side. Asserts that there is one.
    pub(crate) fn another(&mut self, rt: &impl Abort) -> AnyEnd {
        match self {
            AnyEnd::Sends(sender) => AnyEnd::Sends(sender.split().expect(rt, "one more sender")),
            AnyEnd::Receives(receiver) => {
                AnyEnd::Receives(receiver.split().expect(rt, "one more receiver"))
            }
        }
    }

    /// What the channel's own iterator gives first. Asserts that this receives.
    pub(crate) fn next<R: Host>(self, rt: &R) -> (AnyEnd, Option<u64>) {
        let AnyEnd::Receives(receiver) = self else {
            panic!(rt; "no receiver")
        };
        let (channel, mut end) = receiver.into_parts();
        let item = next_by_hand(rt, &channel, &mut end);
        (AnyEnd::Receives(Handle::from_parts(channel, end)), item)
    }

    /// Ends it. Gives whether it was the last of its side.
    pub(crate) fn ends(self) -> bool {
        let (_, last) = match self {
            AnyEnd::Sends(sender) => sender.end(),
            AnyEnd::Receives(receiver) => receiver.end(),
        };
        last
    }
}

/// A sender makes the call of this word.
fn sends<R: Host>(rt: &R, sender: &mut Sender<u64>, word: &str, number: u64) -> String {
    match word {
        "send" => said(rt, sender.send(rt, number)),
        "try_send" => said(rt, sender.try_send(rt, number)),
        "force_send" => said(rt, sender.force_send(rt, number)),
        "send_for" => said(rt, send_for(rt, sender, number)),
        "fill" => said(rt, fill(rt, sender)),
        "force" => said(rt, force(rt, sender, number)),
        _ => calls_alike(rt, sender, word),
    }
}

/// A receiver makes the call of this word.
fn receives<R: Host>(rt: &R, receiver: &mut Receiver<u64>, word: &str, number: u64) -> String {
    match word {
        "recv" => said(rt, receiver.recv(rt)),
        "try_recv" => said(rt, receiver.try_recv(rt)),
        "recv_for" => said(rt, recv_for(rt, receiver, number)),
        "iter" => said(rt, all(rt, receiver)),
        "try_iter" => said(rt, all_there(rt, receiver)),
        _ => calls_alike(rt, receiver, word),
    }
}

/// An answer as it is printed for debugging.
pub(crate) fn said<T: Debug + Drop>(rt: &(impl Abort + AllocGlobal), answer: T) -> String {
    format!(in rt.alloc(); "{answer:?}").expect(rt, "memory")
}

/// Makes the call of this word, which both sides have. Asserts that there is one.
fn calls_alike<E: ChannelEnd<u64>, R: Host>(
    rt: &R,
    end: &mut Handle<E, u64>,
    word: &str,
) -> String {
    match word {
        "close" => said(rt, end.close()),
        "is_closed" => said(rt, end.is_closed()),
        "is_empty" => said(rt, end.is_empty()),
        "is_full" => said(rt, end.is_full()),
        "len" => said(rt, end.len(rt)),
        "capacity" => said(rt, end.capacity()),
        _ => panic!(rt; "no call: {word}"),
    }
}

/// Asserts that so much time is over since then, by a clock that can be read.
fn is_over<R: Host>(rt: &R, begun: Option<Instant>, time: Duration) {
    let over = match (begun, Instant::now(rt)) {
        (Some(begun), Ok(now)) => time <= now.saturating_duration_since(begun),
        _ => false,
    };
    is(rt, over, true);
}

/// Sends, and waits for so many milliseconds at most. Asserts that they are over where there was no room.
fn send_for<R: Host>(rt: &R, sender: &mut Sender<u64>, millis: u64) -> Result<(), PushError<u64>> {
    let begun = Instant::now(rt).ok();
    let time = Duration::from_millis(millis);
    let answer = sender.send_timeout(rt, ITEM, time);
    if answer == Err(PushError::Full(ITEM)) {
        is_over(rt, begun, time);
    }
    answer
}

/// Receives, and waits for so many milliseconds at most. Asserts that they are over where nothing came.
fn recv_for<R: Host>(rt: &R, receiver: &mut Receiver<u64>, millis: u64) -> Result<u64, PopError> {
    let begun = Instant::now(rt).ok();
    let time = Duration::from_millis(millis);
    let answer = receiver.recv_timeout(rt, time);
    if answer == Err(PopError::Empty) {
        is_over(rt, begun, time);
    }
    answer
}

/// Sends as many items as the channel has room for, where it has a limit.
fn fill<R: Host>(rt: &R, sender: &mut Sender<u64>) -> Result<(), PushError<u64>> {
    for _ in 0..sender.capacity().unwrap_or(0) {
        sender.try_send(rt, ITEM)?;
    }
    Ok(())
}

/// Sends so many items by force. Gives whether each displaced another one.
fn force<R: Host>(rt: &R, sender: &mut Sender<u64>, count: u64) -> bool {
    let mut displaced = true;
    for _ in 0..count {
        displaced = sender.force_send(rt, ITEM) == Ok(Some(ITEM)) && displaced;
    }
    displaced
}

/// What an iterator gives until the end.
fn all<R: Host>(rt: &R, receiver: &mut Receiver<u64>) -> Vec<u64> {
    receiver.iter(rt).collect(rt.alloc()).expect(rt, "memory")
}

/// What an iterator gives that does not wait.
fn all_there<R: Host>(rt: &R, receiver: &mut Receiver<u64>) -> Vec<u64> {
    receiver
        .try_iter(rt)
        .collect(rt.alloc())
        .expect(rt, "memory")
}

/// What an iterator of a channel gives first, to a receiver by hand.
fn next_by_hand<R: Wait>(
    rt: &R,
    channel: &Channel<u64>,
    receiver: &mut counted_channel::Receiver<u64>,
) -> Option<u64>
    requires { IsEndOf receiver.old channel.now }
    ensures { IsEndOf receiver.new channel.now }
{
    channel.items(rt, receiver).next()
}
