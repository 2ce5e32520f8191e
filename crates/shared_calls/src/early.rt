//! Where a call stands that has had no effect yet.
ghost use Rattle.std.specs.Prelude.{◌≡◌};
ghost use Rattle.shared_calls.specs.Early.{is_early, spare_at};

use queue_steps::steps::{ChainLocal, Local, RingLocal, SlotLocal};

/// Whether the call that stands there has had no effect, and its party has no part of the queue but a spare block.
pub fn is_early<B: Copy>(local: &Local<B>) -> bool
    ensures { result ≡ is_early local.now }
{
    match local {
        Local::Begin(_) => true,
        Local::Slot(local) => match local {
            SlotLocal::Pushed | SlotLocal::Forced(_) | SlotLocal::Popped => false,
            _ => true,
        },
        Local::Ring(local) => match local {
            RingLocal::Filling(_)
            | RingLocal::Arriving(_)
            | RingLocal::Swapping
            | RingLocal::Emptying => false,
            _ => true,
        },
        Local::Chain(local) => match local {
            ChainLocal::Showing(_, _, _)
            | ChainLocal::Laying(_, _, _, _)
            | ChainLocal::Opening(_, _, _, _)
            | ChainLocal::Chaining(_, _, _, _)
            | ChainLocal::Writing(_, _)
            | ChainLocal::Following(_, _)
            | ChainLocal::Peeking(_, _, _)
            | ChainLocal::Passing(_, _, _)
            | ChainLocal::Entering(_, _)
            | ChainLocal::Awaiting(_, _)
            | ChainLocal::Reading(_, _)
            | ChainLocal::Walking(_, _)
            | ChainLocal::Destroying(_, _) => false,
            _ => true,
        },
    }
}

/// The spare block of the call that stands there.
pub fn spare_at<B: Copy>(local: &Local<B>) -> Option<B>
    ensures { result ≡ spare_at local.now }
{
    match local {
        Local::Chain(local) => match local {
            ChainLocal::PushTail(_, spare)
            | ChainLocal::PushBlock(_, _, spare)
            | ChainLocal::Claiming(_, _, _, spare)
            | ChainLocal::Writing(_, spare)
            | ChainLocal::ClosingAtLimit(_, spare) => *spare,
            ChainLocal::Installing(_, _, block) => Some(*block),
            ChainLocal::Laying(_, _, _, block) => Some(*block),
            _ => None,
        },
        _ => None,
    }
}
