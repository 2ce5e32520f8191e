//! Where a call is: the label of its step, as docs/STEPS.md has it, and what it remembers.
ghost use Rattle.std.specs.Prelude.{◌≡◌, Some};
ghost use Rattle.machine_memory.specs.Places.{chain_at, chain_label, label_text, ring_at, ring_label, slot_label};

use queue_steps::steps::{CallView, ChainLocal, Local, Look, PushKind, RingLocal, SlotLocal};

/// On a ring: which push or look it is, and two words. What the call does not remember is `None` or 0.
pub(crate) type RingKept = (Option<CallView>, u64, u64);

/// On a chain: which push or look it is, two words, a block, and the one after it or the spare.
pub(crate) type ChainKept = (Option<CallView>, (u64, u64), (Option<usize>, Option<usize>));

/// The label of the step before which a call stands.
pub fn label(local: Option<Local<usize>>) -> &'static str
    ensures { result.now ≡ label_text local }
{
    match local {
        Some(Local::Slot(local)) => slot_label(local),
        Some(Local::Ring(local)) => ring_label(local),
        Some(Local::Chain(local)) => chain_label(local),
        Some(Local::Begin(_)) | None => "",
    }
}

// Of a step on one slot.
fn slot_label(local: SlotLocal) -> &'static str
    ensures { result.now ≡ slot_label local }
{
    match local {
        SlotLocal::Pushing => "P1",
        SlotLocal::Pushed => "P2",
        SlotLocal::Forcing(_) => "F1",
        SlotLocal::Forced(_) => "F2",
        SlotLocal::Popping(_) => "O1",
        SlotLocal::Popped => "O2",
        SlotLocal::Closing => "C1",
        SlotLocal::Looking(_) => "L1",
    }
}

// Of a step on a ring.
pub(crate) fn ring_label(local: RingLocal) -> &'static str
    ensures { result.now ≡ ring_label local }
{
    match local {
        RingLocal::PushTail(_) => "B1",
        RingLocal::PushStamp(_, _) => "B2",
        RingLocal::Claiming(_, _) => "B3",
        RingLocal::Filling(_) => "B4",
        RingLocal::PushHead(_) => "B5",
        RingLocal::Displacing(_) => "F5",
        RingLocal::Arriving(_) => "F6",
        RingLocal::Swapping => "F7",
        RingLocal::ClosingAtLimit(_) => "BS",
        RingLocal::PopHead => "O1",
        RingLocal::PopStamp(_) => "O2",
        RingLocal::Taking(_) => "O3",
        RingLocal::Emptying => "O4",
        RingLocal::PopTail(_) => "O5",
        RingLocal::CountTail(_) => "L1",
        RingLocal::CountHead(_, _) => "L2",
        RingLocal::CountAgain(_, _, _) => "L3",
        RingLocal::EmptyHead => "E1",
        RingLocal::EmptyTail(_) => "E2",
        RingLocal::FullTail => "G1",
        RingLocal::FullHead(_) => "G2",
        RingLocal::Closing => "C1",
        RingLocal::ClosedTail => "K1",
    }
}

// Of a step on a chain of blocks.
pub(crate) fn chain_label(local: ChainLocal<usize>) -> &'static str
    ensures { result.now ≡ chain_label local }
{
    match local {
        ChainLocal::PushTail(_, _) => "U1",
        ChainLocal::PushBlock(_, _, _) => "U2",
        ChainLocal::Asking(_, _, _) => "U3",
        ChainLocal::Installing(_, _, _) => "U4",
        ChainLocal::Showing(_, _, _) => "U4b",
        ChainLocal::Claiming(_, _, _, _) => "U5",
        ChainLocal::Laying(_, _, _, _) => "U6",
        ChainLocal::Opening(_, _, _, _) => "U7",
        ChainLocal::Chaining(_, _, _, _) => "U8",
        ChainLocal::Writing(_, _) => "U9",
        ChainLocal::ClosingAtLimit(_, _) => "US",
        ChainLocal::PopHead => "V1",
        ChainLocal::PopBlock(_) => "V2",
        ChainLocal::PopTail(_, _) => "V3",
        ChainLocal::Taking(_, _) => "V4",
        ChainLocal::Following(_, _) => "V5",
        ChainLocal::Peeking(_, _, _) => "V6",
        ChainLocal::Passing(_, _, _) => "V7",
        ChainLocal::Entering(_, _) => "V8",
        ChainLocal::Awaiting(_, _) => "V9",
        ChainLocal::Reading(_, _) => "V10",
        ChainLocal::Walking(_, _) => "W1",
        ChainLocal::Destroying(_, _) => "W2",
        ChainLocal::CountTail(_) => "Y1",
        ChainLocal::CountHead(_, _) => "Y2",
        ChainLocal::CountAgain(_, _, _) => "Y3",
        ChainLocal::EmptyHead => "E1",
        ChainLocal::EmptyTail(_) => "E2",
        ChainLocal::Closing => "C1",
        ChainLocal::ClosedTail => "L1",
    }
}

// A step of this push.
fn a_push(push: PushKind) -> Option<CallView>
    ensures { result ≡ Some (CallView.Push push) }
{
    Some(CallView::Push(push))
}

// A step of this look.
fn a_look(look: Look) -> Option<CallView>
    ensures { result ≡ Some (CallView.Look look) }
{
    Some(CallView::Look(look))
}

/// What a call on a ring remembers. With the label, that is where it is.
pub(crate) fn ring_kept(local: RingLocal) -> RingKept
    ensures { ring_at (ring_label local) result ≡ local }
{
    match local {
        RingLocal::PushTail(push) | RingLocal::Filling(push) | RingLocal::ClosingAtLimit(push) => (
            a_push(push),
            0,
            0,
        ),
        RingLocal::PushStamp(push, word) | RingLocal::Claiming(push, word) => (
            a_push(push),
            word,
            0,
        ),
        RingLocal::PushHead(word)
        | RingLocal::Displacing(word)
        | RingLocal::Arriving(word)
        | RingLocal::PopStamp(word)
        | RingLocal::Taking(word)
        | RingLocal::PopTail(word)
        | RingLocal::EmptyTail(word)
        | RingLocal::FullHead(word) => (None, word, 0),
        RingLocal::CountTail(look) => (a_look(look), 0, 0),
        RingLocal::CountHead(look, tail) => (a_look(look), tail, 0),
        RingLocal::CountAgain(look, tail, head) => (a_look(look), tail, head),
        RingLocal::Swapping
        | RingLocal::PopHead
        | RingLocal::Emptying
        | RingLocal::EmptyHead
        | RingLocal::FullTail
        | RingLocal::Closing
        | RingLocal::ClosedTail => (None, 0, 0),
    }
}

/// The same on a chain of blocks.
pub(crate) fn chain_kept(local: ChainLocal<usize>) -> ChainKept
    ensures { chain_at (chain_label local) result ≡ local }
{
    match local {
        ChainLocal::PushTail(push, spare)
        | ChainLocal::Writing(push, spare)
        | ChainLocal::ClosingAtLimit(push, spare) => (a_push(push), (0, 0), (None, spare)),
        ChainLocal::PushBlock(push, tail, spare) | ChainLocal::Asking(push, tail, spare) => (
            a_push(push),
            (tail, 0),
            (None, spare),
        ),
        ChainLocal::Installing(push, tail, block) | ChainLocal::Showing(push, tail, block) => (
            a_push(push),
            (tail, 0),
            (Some(block), None),
        ),
        ChainLocal::Claiming(push, tail, block, spare) => (
            a_push(push),
            (tail, 0),
            (Some(block), spare),
        ),
        ChainLocal::Laying(push, tail, block, fresh)
        | ChainLocal::Opening(push, tail, block, fresh)
        | ChainLocal::Chaining(push, tail, block, fresh) => (
            a_push(push),
            (tail, 0),
            (Some(block), Some(fresh)),
        ),
        ChainLocal::PopBlock(word) | ChainLocal::EmptyTail(word) => {
            (None, (word, 0), (None, None))
        }
        ChainLocal::PopTail(head, block) => (None, (head, 0), (None, block)),
        ChainLocal::Taking(head, block)
        | ChainLocal::Following(head, block)
        | ChainLocal::Entering(head, block)
        | ChainLocal::Awaiting(head, block)
        | ChainLocal::Reading(block, head)
        | ChainLocal::Walking(block, head)
        | ChainLocal::Destroying(block, head) => (None, (head, 0), (Some(block), None)),
        ChainLocal::Peeking(head, block, after) => (None, (head, 0), (Some(block), Some(after))),
        ChainLocal::Passing(head, block, true) => (None, (head, 1), (Some(block), None)),
        ChainLocal::Passing(head, block, false) => (None, (head, 0), (Some(block), None)),
        ChainLocal::CountTail(look) => (a_look(look), (0, 0), (None, None)),
        ChainLocal::CountHead(look, tail) => (a_look(look), (tail, 0), (None, None)),
        ChainLocal::CountAgain(look, tail, head) => { (a_look(look), (tail, head), (None, None)) }
        ChainLocal::PopHead
        | ChainLocal::EmptyHead
        | ChainLocal::Closing
        | ChainLocal::ClosedTail => (None, (0, 0), (None, None)),
    }
}
