//! What follows from a replay that conforms. Each function is there for its contract alone.
ghost use Rattle.machine_replay.specs.Meaning.{ConformingHasHistory};
ghost use Rattle.machine_replay.specs.AtOnce.{RunsDisplaceAtOnce};
ghost use Rattle.machine_replay.specs.OneOwner.{OnePartyIsOneOwner};
ghost use Rattle.machine_replay.specs.PeakTold.{PeakIsOfTheRun};
ghost use Rattle.machine_replay.specs.Progress.{AppendsReply, HalfDoneNeverWaits, SilenceIsShort, RunsAloneReply, TakesReply, UnhinderedCallsReply};
ghost use Rattle.machine_replay.specs.Skips.{SkippedIsExact};
ghost use Rattle.machine_replay.specs.Waits.{CallsWait, LenWaitsForNobody};
ghost use Rattle.machine_replay.specs.Within.{NothingAppendedWithin, CallsAloneReply, WaitFreeCallsReply};

use std::alloc::Allocator;

/// What a conforming replay tells is one legal history, whose kinds are the effects, in their order, and whose last state has the items that are left.
///
/// Each effect is at a step of the call that its party is in. A front is taken off by a call that had seen the queue open at a step before, and the next item that arrives
/// does so by the same call. Each reply ends the call that its party is in: the effects of that call are those that the reply stands for, and a reply without effect is right
/// at a moment between the call's first step and its last; a call without steps replies where it begins. A call that has not ended has a beginning of the effects of one of
/// its replies. The replies and the skipped events stand in the order of the events, too, one an event at most.
pub fn has_history<T, A: Allocator>()
    ensures { ConformingHasHistory T A }
{}

/// Exactly the events that do not fit are skipped: those of no party, those that begin a call within a call, and those that step between calls.
pub fn skipped_is_exact<T, A: Allocator>()
    ensures { SkippedIsExact T A }
{}

/// Between the front that a displacing call takes off and the arrival of its item nothing is appended, by any party.
pub fn nothing_appended_within<T>()
    ensures { NothingAppendedWithin T }
{}

/// A call that is in progress, while every other party is between calls and begins none, replies within `STEPS_ALONE` steps of its own, as the lists of a replay show. In the runs that
/// the machine makes it does so by its step of the number that `unhindered_calls_reply` has, of which that is a case.
pub fn calls_alone_reply<T, A: Allocator>()
    ensures lists { CallsAloneReply T A }
    ensures runs { RunsAloneReply T }
{}

/// From any moment on at which no other party is half done, and none has installed a chain's first block and not shown it, and while no other party has an effect, a call replies by its
/// step of this number: its third on one slot, its sixth on a ring, its seventy-third on a chain.
///
/// A party is half done in a call that has had an effect and has not replied. So a party makes nobody wait while it is between calls, or in a call that has had no effect, wherever it
/// stops; it may also begin calls, take steps and get replies meanwhile.
pub fn unhindered_calls_reply<T>()
    ensures { UnhinderedCallsReply T }
{}

/// On a queue with a capacity each step of a half-done call has an effect or ends the call. So a call that others wait for never waits itself.
pub fn half_done_never_waits<T>()
    ensures { HalfDoneNeverWaits T }
{}

/// Behind the step by which a call appends it replies by its next step on a queue with a capacity, and by its fourth on a chain, whatever the other parties do.
pub fn appends_reply<T>()
    ensures { AppendsReply T }
{}

/// Behind the step by which a call takes it replies by its next step on a queue with a capacity. On a chain it replies within two steps for each slot of a block and three, while
/// no other call is between its append and its reply: a pop that has taken waits for such a call alone.
pub fn takes_reply<T>()
    ensures { TakesReply T }
{}

/// A call whose word is as it read it, and that goes back all the same at its next step, or by its next two with no other party's step between, does so beside a call at certain steps
/// alone: a push on one slot beside a pop; a pop on one slot beside a push; a push on a ring beside a push that has not stored its stamp, or a call that has taken the last lap's item and
/// not given its slot back; and a pop on a ring beside the call that has its slot.
///
/// Where another party takes a step between these two, a call on a ring may go back once more, with the word as it is and nobody in a call: it was full or empty, and is not any more.
///
/// On a chain a push goes back beside a push that moves the tail over a block's end, and a pop beside a pop that moves the head over one, or beside the push that has installed the first
/// block and not shown it. A pop that has taken goes back beside a push alone that has appended and not linked the next block, or not written.
///
/// But for the push that shows the first block, each such call is half done.
pub fn calls_wait<T>()
    ensures { CallsWait T }
{}

/// `len` waits for nobody: while the tail is as it is, it replies by its fifth step, whatever the other parties do and wherever they stand.
pub fn len_waits_for_nobody<T>()
    ensures { LenWaitsForNobody T }
{}

/// A stretch of a run in which nobody has an effect and nobody gets a reply is short, unless half-done calls stand still in it.
///
/// Where nobody is half done at its beginning, and no other party is to show a chain's first block, each call takes fewer steps in it than `unhindered_calls_reply` says; on a queue with a capacity a half-done call takes none.
pub fn silence_is_short<T>()
    ensures { SilenceIsShort T }
{}

/// `close`, `is_closed`, `is_empty` and `is_full` reply by their second step, whatever the other parties do.
pub fn wait_free_calls_reply<T, A: Allocator>()
    ensures { WaitFreeCallsReply T A }
{}

/// The history of a conforming replay settles into one in which each displacement is one moment, between two steps of its own call.
///
/// Each call that has ended has the same effects there, one right after the other, and what is left is what the history leaves once all has arrived.
///
/// Each reply ends its call there as it does in the history itself, but for a reply of `len`, `is_empty` or `is_full` that was read while an item was on its way in.
pub fn displaces_at_once<T, A: Allocator>()
    ensures { RunsDisplaceAtOnce T A }
{}

/// With one party the replies are those of a run of the table of one owner, over the calls that were begun and in their order. At most the last of them has no reply; where it
/// has one, what is left is what the table leaves.
pub fn one_party_is_one_owner<T, A: Allocator>()
    ensures { OnePartyIsOneOwner T A }
{}

/// The greatest number of blocks of a conforming replay is within its bound, which is what the items fill at a moment of the run, two, and one for each call in progress then. It is
/// no less, at any moment, than the blocks from the first item's to the one where the next item goes.
pub fn peak_is_of_the_run<T, A: Allocator>()
    ensures { PeakIsOfTheRun T A }
{}
