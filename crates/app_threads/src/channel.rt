//! The mode `channel`: how often each value came through a channel whose ends threads have.
ghost use Rattle.std.specs.Prelude.{◌≡◌, ◌<◌, ◌≤◌, ◌+◌, ◌*◌, ◌^◌, ℕ, length, get_or, IfOk, MatchResult};
ghost use Rattle.std.specs.Io.KnownBytes.{Appends};
ghost use Rattle.std.specs.Option.{IfSome};
ghost use Rattle.queue_steps.specs.declared.sizes.TheConstants.{MAX_CAPACITY};
ghost use Rattle.app_text.specs.KindNames.{IsLoad, capacity_of};
ghost use Rattle.queue_steps.specs.Shares.{IsEntire};
ghost use Rattle.concurrent_queue.specs.Shared.{IsPartyOf};
ghost use Rattle.app_threads.specs.Counts.{IsReceived, IsReceivedText, IsTally, finding_verdict, judged, received_text};
ghost use Rattle.app_threads.specs.Sharing.{IsEnded, SeesLeft, left_in};
ghost use Rattle.app_threads.specs.Verdicts.{IsOutputFault};

use crate::counts::judge;
use crate::crew::{Plan, WorkResult};
use crate::ends::run_all;
use crate::limit::Limit;
use crate::sharing::{EndedChannel, Ran, Sharing};
use crate::threads::{queue_of, write_finding};
use crate::verdict::Verdict;
use app_text::faults::Fault;
use app_text::load::Load;
use concurrent_queue::Party;
use counted_channel::Channel;
use std::alloc::{AllocError, Global};
use std::io::Write;
use std::sync::Wait;
use std::thread::Threads;

/// Lets threads send and receive as the load says, through a channel over a queue of its kind, and writes whether each value came as often as it was sent, and how
/// many items the channel's ends left in the queue. Hands the channel on, with the party that all of theirs have become.
///
/// It ends in `NoMemory`, also where a thread cannot be started, a send gets no block or no queue may have the capacity, and
/// in `OutputFailed`, where a beginning of the output may be written.
pub fn channel<R: Threads + Wait + Sync, O: Write>(
    rt: &R,
    alloc: Global,
    load: Load,
    limit: Limit,
    output: &mut O,
) -> Ran
    requires { IsLoad load }
    ensures { MatchResult result.end
        (IsReceived load result.sharing (O.contents output.old) (O.contents output.new))
        (IsOutputFault (IsReceivedText load result.sharing) (O.contents output.old) (O.contents output.new)) }
{
    match receive_all(rt, alloc, load, limit) {
        Ok((ended, counts, left)) => Ran {
            end: write_received(alloc, load, &counts, left, output),
            sharing: Sharing::Ended(ended),
        },
        Err(_) => Ran {
            end: Err(Fault::NoMemory),
            sharing: Sharing::Nothing,
        },
    }
}

// Writes what the counts show, and how many items are left.
fn write_received<O: Write>(
    alloc: Global,
    load: Load,
    counts: &[u64],
    left: usize,
    output: &mut O,
) -> Result<Verdict, Fault>
    ensures { MatchResult result
        (λ shown. Appends (O.contents output.old) (O.contents output.new) (received_text load counts.now left) × (shown ≡ finding_verdict (judged load.pushers counts.now)))
        (IsOutputFault (λ text. text ≡ received_text load counts.now left) (O.contents output.old) (O.contents output.new)) }
{
    let finding = judge(load.pushers, counts);
    let Ok(text) = format!(in alloc; "{finding}\nleft {left}\n") else {
        return Err(Fault::NoMemory);
    };
    write_finding(finding, text.as_bytes(), output)
}

// How often each value came, the channel through which it did, and how many items its ends left.
fn receive_all<R: Threads + Wait + Sync>(
    rt: &R,
    alloc: Global,
    load: Load,
    limit: Limit,
) -> Result<(EndedChannel, Vec<u64>, usize), AllocError>
    requires { IsLoad load }
    ensures ended { IfOk result (λ r. IsEnded (capacity_of load.kind) r.0) }
    ensures tally { IfOk result (λ r. IsTally load r.0.party.view r.1.items) }
    ensures left { IfOk result (λ r. r.2 ≡ length (left_in r.0)) }
{
    let (queue, party) = queue_of(alloc, load.kind)?;
    let Ok((channel, sender, receiver)) = counted_channel::channel(alloc, queue, party) else {
        return Err(AllocError);
    };
    let WorkResult {
        mut party,
        counts,
        done,
    } = run_all(rt, alloc, &channel, sender, receiver, plan_of(load, limit))?;
    if !done {
        return Err(AllocError);
    }
    let Some(left) = items_left(rt, &channel, &mut party) else {
        return Err(AllocError);
    };
    Ok((EndedChannel { channel, party }, counts, left))
}

// How many items are left, as the only party sees the queue. None where that is open, which it is not once the last end of a side has ended.
fn items_left<R: Wait>(rt: &R, channel: &Channel<u64>, party: &mut Party<u64>) -> Option<usize>
    requires of { IsPartyOf party.old channel.now.queue }
    requires whole { IsEntire party.old.view.share }
    ensures { IfSome result (λ left. SeesLeft party.old party.new left) }
{
    party.show_view();
    if !channel.is_closed_by(party) {
        return None;
    }
    party.show_view();
    let left = channel.len_by(rt, party);
    party.show_view();
    Some(left)
}

// What the threads have to do. A receiver may have to receive all that is sent, and then that nobody sends any more.
fn plan_of(load: Load, limit: Limit) -> Plan
    requires { IsLoad load }
    ensures items { result.items ≡ load.items }
    ensures threads { result.pushers + result.poppers < 2 ^ 64 }
    ensures few { (result.pushers + result.poppers) * result.share < 2 ^ 64 }
{
    Plan {
        pushers: load.pushers,
        poppers: load.poppers,
        items: load.items,
        share: load.pushers * load.items + 1,
        limit,
    }
}
