//! Callers of channels that are proved from the public contracts alone; `CALLING.md` of `counted_channel` shows one.
ghost use Rattle.std.specs.Prelude.{◌≡◌, ◌<◌};
ghost use Rattle.queue_steps.specs.Shares.{entire};
ghost use Rattle.concurrent_queue.specs.Shared.{IsPartyOf};
ghost use Rattle.counted_channel.specs.Channel.{IsEndOf};
ghost use denote.Param.Send.{IsSync};

use concurrent_queue::{ConcurrentQueue, Party};
use counted_channel::{Channel, Disconnected, Receiver, SendError, Sender, channel};
use std::alloc::{AllocError, Global};
use std::sync::Wait;
use std::thread::{Threads, join};

/// How many items two senders sent, how many a receiver received, and how many were left.
#[derive(Drop)]
pub struct Gathered {
    pub sent: (u64, u64),
    pub came: u64,
    pub left: usize,
}

/// Two threads send 0, 1, .. up to `count`, which is left out, and this one receives until both have ended. The channel can be finished, since no party is left over.
///
/// # Errors
///
/// There was no memory.
pub fn gather<R: Threads + Wait + Sync>(
    rt: &R,
    alloc: Global,
    cap: usize,
    count: u64,
) -> Result<Gathered, AllocError>
    requires { 0 < cap }
{
    let (queue, party) = ConcurrentQueue::bounded(alloc, cap)?;
    let Ok((channel, sender, receiver)) = channel(alloc, queue, party) else {
        return Err(AllocError);
    };
    let Ok((one, two)) = channel.split_sender(sender) else {
        return Err(AllocError);
    };
    let (((first, sent), (second, more)), (third, came)) = join(
        rt,
        || -> ((Party<u64>, u64), (Party<u64>, u64))
            requires { IsSync R.row × IsEndOf one channel × IsEndOf two channel }
            ensures { IsPartyOf result.0.0 channel.queue × (result.0.0.view.share ≡ one.party.view.share) × IsPartyOf result.1.0 channel.queue × (result.1.0.view.share ≡ two.party.view.share) }
        {
            join(
                rt,
                || send_all(rt, &channel, one, count),
                || send_all(rt, &channel, two, count),
            )
        },
        || receive_all(rt, &channel, receiver),
    );
    let party = channel.join(channel.join(first, second), third);
    match channel.finish(party) {
        Ok(left) => Ok(Gathered {
            sent: (sent, more),
            came,
            left: left.len(),
        }),
        Err(_) => unreachable!(),
    }
}

/// Sends 0, 1, .. up to `count`, which is left out, and ends. Gives the sender's party, and how many were sent.
fn send_all<R: Wait>(
    rt: &R,
    channel: &Channel<u64>,
    mut sender: Sender<u64>,
    count: u64,
) -> (Party<u64>, u64)
    requires { IsEndOf sender channel.now }
    ensures { IsPartyOf result.0 channel.now.queue × (result.0.view.share ≡ sender.party.view.share) }
{
    let mut sent: u64 = 0;
    for item in 0..count {
        if channel.send(rt, &mut sender, item).is_ok() {
            sent = sent.wrapping_add(1);
        }
    }
    (channel.end_sender(sender).0, sent)
}

/// Receives until nothing is left and nobody sends, and ends. Gives the receiver's party, and how many items came.
fn receive_all<R: Wait>(
    rt: &R,
    channel: &Channel<u64>,
    mut receiver: Receiver<u64>,
) -> (Party<u64>, u64)
    requires { IsEndOf receiver channel.now }
    ensures { IsPartyOf result.0 channel.now.queue × (result.0.view.share ≡ receiver.party.view.share) }
{
    let mut came: u64 = 0;
    for _ in rt.forever() {
        if channel.recv(rt, &mut receiver).is_err() {
            break;
        }
        came = came.wrapping_add(1);
    }
    (channel.end_receiver(receiver).0, came)
}

/// Another thread sends 0, 1, .. up to `count`, which is left out, and this one receives until it has ended. Gives how many items came.
///
/// # Errors
///
/// There was no memory.
pub fn send_across<R: Threads + Wait + Sync>(
    rt: &R,
    alloc: Global,
    count: u64,
) -> Result<u64, AllocError> {
    let (queue, party) = ConcurrentQueue::bounded(alloc, 4)?;
    let Ok((channel, sender, receiver)) = channel(alloc, queue, party) else {
        return Err(AllocError);
    };
    let (_, (_, came)) = join(
        rt,
        || send_all(rt, &channel, sender, count),
        || receive_all(rt, &channel, receiver),
    );
    Ok(came)
}

/// What a sender was answered, what a receiver was answered after the sender's end, and how many items were left.
#[derive(Drop)]
pub struct Handed {
    pub sent: Result<(), SendError<u64>>,
    pub came: Result<u64, Disconnected>,
    pub then: Result<u64, Disconnected>,
    pub left: usize,
}

/// Sends `value` through a slot. Both ends are the last of their side, so no arm stands for the other answer.
///
/// # Errors
///
/// There was no memory.
pub fn hand_through<R: Wait>(rt: &R, alloc: Global, value: u64) -> Result<Handed, AllocError> {
    let (queue, party) = ConcurrentQueue::bounded(alloc, 1)?;
    let Ok((channel, sender, receiver)) = channel(alloc, queue, party) else {
        return Err(AllocError);
    };
    let (mut sender, mut receiver): (Sender<u64>, Receiver<u64>) = (sender, receiver);
    let sent = channel.send(rt, &mut sender, value);
    let (first, true) = channel.end_sender(sender) else {
        unreachable!()
    };
    let came = channel.recv(rt, &mut receiver);
    let then = channel.recv(rt, &mut receiver);
    let (second, true) = channel.end_receiver(receiver) else {
        unreachable!()
    };
    let party = channel.join(first, second);
    match channel.finish(party) {
        Ok(left) => Ok(Handed {
            sent,
            came,
            then,
            left: left.len(),
        }),
        Err(_) => unreachable!(),
    }
}

/// The only sender, ended after it was parted and joined again: it is the last of its side. Gives its party.
pub fn end_rejoined(channel: &Channel<u64>, sender: Sender<u64>) -> Party<u64>
    requires { IsEndOf sender channel.now × (sender.stake ≡ entire) }
    ensures { IsPartyOf result channel.now.queue }
{
    let sender = match channel.split_sender(sender) {
        Ok((one, two)) => channel.join_senders(one, two),
        Err(sender) => sender,
    };
    let (party, true) = channel.end_sender(sender) else {
        unreachable!()
    };
    party
}
