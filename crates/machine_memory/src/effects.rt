//! What a step of a call did to the queue.
ghost use Rattle.std.specs.Prelude.{◌≡◌, ℕ};
ghost use Rattle.queue_steps.specs.RingNext.{FitsRing};
ghost use Rattle.queue_steps.specs.Next.{CanNext};
ghost use Rattle.queue_steps.specs.Words.{IsRing};
ghost use Rattle.queue_steps.specs.declared.steps.types.Answer.TheVariants.{Found as SpecFound};
ghost use Rattle.machine_memory.specs.EffectOf.{slot_effect, ring_effect, chain_effect, effect_of};

use crate::types::EffectKind;
use queue_steps::steps::{Answer, CLOSED, ChainLocal, Kind, Local, RingLocal, SlotLocal};
use queue_steps::words::{is_marked, position_of};

/// What a step on one slot did to the queue.
fn effect_on_slot(local: SlotLocal, found: u64) -> Option<EffectKind>
    ensures { result ≡ slot_effect local found }
{
    match local {
        SlotLocal::Pushing => (found == 0).then_some(EffectKind::Append),
        SlotLocal::Forcing(seen) => {
            if found & CLOSED != 0 || found != seen {
                None
            } else if seen == 0 {
                Some(EffectKind::Append)
            } else {
                Some(EffectKind::Replace)
            }
        }
        SlotLocal::Popping(seen) => (found == seen).then_some(EffectKind::Take),
        SlotLocal::Closing => (found & CLOSED == 0).then_some(EffectKind::Close),
        _ => None,
    }
}

/// What a step on a ring did to the queue.
fn effect_on_ring(cap: u64, local: RingLocal, found: u64) -> Option<EffectKind>
    requires ring { IsRing cap }
    requires fits { FitsRing {B = ℕ} cap local (SpecFound found) }
    ensures { result ≡ ring_effect cap local found }
{
    match local {
        RingLocal::Claiming(_, tail) => (found == tail).then_some(EffectKind::Append),
        RingLocal::Displacing(tail) => (found + cap == position_of(tail)).then_some(
            EffectKind::Front,
        ),
        RingLocal::Arriving(_) => Some(EffectKind::Arrive),
        RingLocal::ClosingAtLimit(_) => (!is_marked(found)).then_some(EffectKind::SelfClose),
        RingLocal::Taking(head) => (found == head).then_some(EffectKind::Take),
        RingLocal::Closing => (!is_marked(found)).then_some(EffectKind::Close),
        _ => None,
    }
}

/// What a step on a chain of blocks did to the queue.
fn effect_on_chain(local: ChainLocal<usize>, found: u64) -> Option<EffectKind>
    ensures { result ≡ chain_effect local found }
{
    match local {
        ChainLocal::Claiming(_, tail, _, _) => (found == tail).then_some(EffectKind::Append),
        ChainLocal::ClosingAtLimit(_, _) => (!is_marked(found)).then_some(EffectKind::SelfClose),
        ChainLocal::Taking(head, _) => (found == head).then_some(EffectKind::Take),
        ChainLocal::Closing => (!is_marked(found)).then_some(EffectKind::Close),
        _ => None,
    }
}

/// What a step did to the queue, told from where its call stood and what its operation found.
pub fn effect(kind: Kind, local: Local<usize>, answer: Answer<usize>) -> Option<EffectKind>
    requires { CanNext kind local answer }
    ensures { result ≡ effect_of kind local answer }
{
    match (kind, local, answer) {
        (_, Local::Slot(local), Answer::Found(found)) => effect_on_slot(local, found),
        (Kind::Bounded(cap), Local::Ring(local), Answer::Found(found)) => effect_on_ring(
            cap as u64, local, found,
        ),
        (Kind::Unbounded, Local::Chain(local), Answer::Found(found)) => effect_on_chain(
            local, found,
        ),
        _ => None,
    }
}
