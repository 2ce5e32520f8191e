//! The mode `threads`: how often each value came out of a queue that threads share.
ghost use Rattle.std.specs.Prelude.{◌≡◌, ◌<◌, ◌≤◌, ◌+◌, ◌*◌, ◌^◌, ℕ, [], length, get_or, IfOk, MatchResult};
ghost use Rattle.std.specs.Io.KnownBytes.{Appends};
ghost use Rattle.std.specs.Option.{IfSome};
ghost use Rattle.queue_steps.specs.declared.sizes.TheConstants.{MAX_CAPACITY};
ghost use Rattle.queue_steps.specs.Shares.{entire};
ghost use Rattle.app_text.specs.KindNames.{IsKindName, IsLoad, capacity_of};
ghost use Rattle.concurrent_queue.specs.Shared.{IsPartyOf};
ghost use Rattle.law_parties.specs.Doings.{takes};
ghost use Rattle.app_threads.specs.Counts.{IsCounted, IsCountsLine, counts_line, finding_verdict, judged};
ghost use Rattle.app_threads.specs.Sharing.{HasWholeParty};
ghost use Rattle.app_threads.specs.Verdicts.{IsOutputFault};

use crate::counts::{Finding, judge};
use crate::crew::{Plan, Queue, WorkResult, run_all};
use crate::limit::Limit;
use crate::sharing::{EndedQueue, Ran, Sharing};
use crate::verdict::Verdict;
use app_text::args::KindName;
use app_text::faults::Fault;
use app_text::load::Load;
use app_text::streams::write_output;
use concurrent_queue::Party;
use std::alloc::{AllocError, Global};
use std::io::Write;
use std::sync::Wait;
use std::thread::Threads;

/// Lets threads push and pop as the load says, on a queue of its kind, and writes whether each value came as often as
/// it was pushed. Hands the queue on, with the party that all of theirs have become.
///
/// It ends in `NoMemory`, also where a thread cannot be started, a push gets no block or no queue may have the capacity, and
/// in `OutputFailed`, where a beginning of the output may be written.
pub fn threads<R: Threads + Wait + Sync, O: Write>(
    rt: &R,
    alloc: Global,
    load: Load,
    limit: Limit,
    output: &mut O,
) -> Ran
    requires { IsLoad load }
    ensures { MatchResult result.end
        (IsCounted load result.sharing (O.contents output.old) (O.contents output.new))
        (IsOutputFault (IsCountsLine load result.sharing) (O.contents output.old) (O.contents output.new)) }
{
    match count_all(rt, alloc, load, limit) {
        Ok((shared, counts)) => Ran {
            end: write_counts(alloc, load, &counts, output),
            sharing: Sharing::Counted(shared),
        },
        Err(_) => Ran {
            end: Err(Fault::NoMemory),
            sharing: Sharing::Nothing,
        },
    }
}

/// Writes the text of what the counts have shown.
pub(crate) fn write_finding<O: Write>(
    finding: Finding,
    text: &[u8],
    output: &mut O,
) -> Result<Verdict, Fault>
    ensures { MatchResult result
        (λ shown. Appends (O.contents output.old) (O.contents output.new) text.now × (shown ≡ finding_verdict finding))
        (IsOutputFault (λ written. written ≡ text.now) (O.contents output.old) (O.contents output.new)) }
{
    write_output(output, text)?;
    Ok(finding.verdict())
}

// Writes what the counts show.
fn write_counts<O: Write>(
    alloc: Global,
    load: Load,
    counts: &[u64],
    output: &mut O,
) -> Result<Verdict, Fault>
    ensures { MatchResult result
        (λ shown. Appends (O.contents output.old) (O.contents output.new) (counts_line load counts.now) × (shown ≡ finding_verdict (judged load.pushers counts.now)))
        (IsOutputFault (λ text. text ≡ counts_line load counts.now) (O.contents output.old) (O.contents output.new)) }
{
    let finding = judge(load.pushers, counts);
    let Ok(text) = format!(in alloc; "{finding}\n") else {
        return Err(Fault::NoMemory);
    };
    write_finding(finding, text.as_bytes(), output)
}

// How often each value came, and the queue through which it did.
fn count_all<R: Threads + Wait + Sync>(
    rt: &R,
    alloc: Global,
    load: Load,
    limit: Limit,
) -> Result<(EndedQueue, Vec<u64>), AllocError>
    requires { IsLoad load }
    ensures within { IfOk result (λ _. IfSome (capacity_of load.kind) (λ size. size ≤ MAX_CAPACITY)) }
    ensures all { IfOk result (λ r. HasWholeParty (capacity_of load.kind) r.0) }
    ensures complete { IfOk result (λ r. length r.1.items ≡ load.items) }
    ensures taken { IfOk result (λ r. (x : ℕ) → x < load.items → get_or r.1.items x 0 ≡ takes x r.0.party.view) }
{
    let (queue, party) = queue_of(alloc, load.kind)?;
    let WorkResult {
        party,
        counts,
        done,
    } = run_all(rt, alloc, &queue, party, plan_of(load, limit))?;
    if !done {
        return Err(AllocError);
    }
    party.show_view();
    Ok((EndedQueue { queue, party }, counts))
}

/// An empty open queue of this kind, and its only party.
pub(crate) fn queue_of(alloc: Global, kind: KindName) -> Result<(Queue, Party<u64>), AllocError>
    requires { IsKindName kind }
    ensures first { IfOk result (λ r. IsPartyOf r.1 r.0 × (r.0.cap ≡ capacity_of kind) × (r.1.view ≡ record { seen = []; mine = []; share = entire })) }
    ensures within { IfOk result (λ _. IfSome (capacity_of kind) (λ size. size ≤ MAX_CAPACITY)) }
{
    match kind {
        KindName::Single => Queue::bounded(alloc, 1),
        KindName::Bounded(cap) => Queue::bounded(alloc, cap),
        KindName::Unbounded => Queue::unbounded(alloc),
    }
}

// What the threads have to do: the poppers share the items evenly.
fn plan_of(load: Load, limit: Limit) -> Plan
    requires { IsLoad load }
    ensures items { result.items ≡ load.items }
    ensures threads { result.pushers + result.poppers < 2 ^ 64 }
    ensures few { (result.pushers + result.poppers) * result.share < 2 ^ 64 }
{
    Plan {
        pushers: load.pushers,
        poppers: load.poppers,
        items: load.items,
        share: load.pushers * load.items / load.poppers,
        limit,
    }
}
