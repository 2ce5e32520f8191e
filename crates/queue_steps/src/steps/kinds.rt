//! The steps of the calls on queues of each kind. A driver is made for one kind, and asks these one by one, so that the common ones stand in its line.
ghost use Rattle.std.specs.Prelude.{◌≡◌, true};
ghost use Rattle.queue_steps.specs.CommonNext.{is_common_of};
ghost use Rattle.queue_steps.specs.Next.{CanNext, next_of};
ghost use Rattle.queue_steps.specs.declared.steps.types.Kind.{Kind as SpecKind};
ghost use Rattle.queue_steps.specs.declared.steps.types.Kind.TheVariants.{Single, Bounded, Unbounded};

use crate::steps::{Answer, Kind, Local, Next, blocks, chain, ring, slot};

/// The steps of the calls on queues of one kind. The answer is `Start` at first, and then what the operation gave that was asked for.
pub trait KindSteps {
    /// Which kinds these are the steps of.
    ghost has_kind: { SpecKind → Type 0 };

    /// What a call does next.
    fn next<B: Copy>(kind: Kind, local: Local<B>, answer: Answer<B>) -> Next<B>
        requires of { has_kind kind }
        requires can { CanNext kind local answer }
        ensures { result ≡ next_of kind local answer };

    /// Whether a call is at a step that `next_common` tells.
    fn is_common<B: Copy>(kind: Kind, local: &Local<B>, answer: &Answer<B>) -> bool
        requires of { has_kind kind }
        requires can { CanNext kind local.now answer.now }
        ensures { result ≡ is_common_of kind local.now answer.now };

    /// What a call does next, where it is what calls commonly do: it finds room or an item, and meets no other call and no block's end.
    fn next_common<B: Copy>(kind: Kind, local: Local<B>, answer: Answer<B>) -> Next<B>
        requires of { has_kind kind }
        requires can { CanNext kind local answer }
        requires common { is_common_of kind local answer ≡ true }
        ensures { result ≡ next_of kind local answer };

    /// Whether items are kept in blocks, so that a call may pass from block to block or walk over one (`blocks`). Where they are not, a driver leaves those steps out.
    #[inline(always)]
    fn has_blocks() -> bool {
        false
    }
}

/// The steps of the calls on one slot. All are common ones.
pub struct SlotSteps;

impl KindSteps for SlotSteps {
    ghost has_kind = { λ k. k ≡ Single };

    #[inline(always)]
    fn next<B: Copy>(kind: Kind, local: Local<B>, answer: Answer<B>) -> Next<B> {
        let _ = kind;
        match (local, answer) {
            (Local::Begin(call), Answer::Start) => slot::each::begin(call),
            (Local::Slot(local), Answer::Found(word)) => slot::each::next(local, word),
            _ => unreachable!(),
        }
    }

    #[inline(always)]
    fn is_common<B: Copy>(_kind: Kind, _local: &Local<B>, _answer: &Answer<B>) -> bool {
        true
    }

    #[inline(always)]
    fn next_common<B: Copy>(kind: Kind, local: Local<B>, answer: Answer<B>) -> Next<B> {
        Self::next(kind, local, answer)
    }
}

/// The steps of the calls on a ring.
pub struct RingSteps;

impl KindSteps for RingSteps {
    ghost has_kind = { λ k. (cap : _) × (k ≡ Bounded cap) };

    #[inline(always)]
    fn next<B: Copy>(kind: Kind, local: Local<B>, answer: Answer<B>) -> Next<B> {
        if Self::is_common(kind, &local, &answer) {
            return Self::next_common(kind, local, answer);
        }
        match (kind, local) {
            (Kind::Bounded(cap), Local::Ring(local)) => ring::following::next_other(
                cap as u64, local, answer,
            ),
            _ => unreachable!(),
        }
    }

    #[inline(always)]
    fn is_common<B: Copy>(kind: Kind, local: &Local<B>, answer: &Answer<B>) -> bool {
        match (kind, local) {
            (Kind::Bounded(_), Local::Begin(_)) => true,
            (Kind::Bounded(cap), Local::Ring(local)) => ring::following::is_common(
                cap as u64, local, answer,
            ),
            _ => unreachable!(),
        }
    }

    #[inline(always)]
    fn next_common<B: Copy>(kind: Kind, local: Local<B>, answer: Answer<B>) -> Next<B> {
        match (kind, local, answer) {
            (Kind::Bounded(cap), Local::Begin(call), Answer::Start) => ring::each::begin(cap, call),
            (Kind::Bounded(cap), Local::Ring(local), answer) => ring::following::next_common(
                cap as u64, local, answer,
            ),
            _ => unreachable!(),
        }
    }
}

/// The steps of the calls on a chain of blocks.
pub struct ChainSteps;

impl KindSteps for ChainSteps {
    ghost has_kind = { λ k. k ≡ Unbounded };

    #[inline(always)]
    fn next<B: Copy>(kind: Kind, local: Local<B>, answer: Answer<B>) -> Next<B> {
        if Self::is_common(kind, &local, &answer) {
            return Self::next_common(kind, local, answer);
        }
        if blocks::is_walk(kind, &local, &answer) {
            return blocks::next_walk(kind, local, answer);
        }
        if blocks::is_passing(kind, &local, &answer) {
            return blocks::next_passing(kind, local, answer);
        }
        match local {
            Local::Chain(local) => chain::following::next_other(local, answer),
            _ => unreachable!(),
        }
    }

    #[inline(always)]
    fn is_common<B: Copy>(kind: Kind, local: &Local<B>, answer: &Answer<B>) -> bool {
        let _ = kind;
        match local {
            Local::Begin(_) => true,
            Local::Chain(local) => chain::following::is_common(local, answer),
            _ => unreachable!(),
        }
    }

    #[inline(always)]
    fn next_common<B: Copy>(kind: Kind, local: Local<B>, answer: Answer<B>) -> Next<B> {
        let _ = kind;
        match (local, answer) {
            (Local::Begin(call), Answer::Start) => chain::each::begin(call),
            (Local::Chain(local), answer) => chain::following::next_common(local, answer),
            _ => unreachable!(),
        }
    }

    #[inline(always)]
    fn has_blocks() -> bool {
        true
    }
}
