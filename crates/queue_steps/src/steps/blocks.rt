//! The steps of a call that passes from block to block, or walks over a block. Only an unbounded queue keeps its items in blocks, and calls on queues of other kinds take none of these.
ghost use Rattle.std.specs.Prelude.{◌≡◌, true, false};
ghost use Rattle.queue_steps.specs.CommonNext.{is_common_of, is_walk_of, is_passing_of};
ghost use Rattle.queue_steps.specs.Next.{CanNext, next_of};

use crate::steps::chain::following;
use crate::steps::{Answer, Kind, Local, Next};

/// Whether a call passes from block to block, as `next_passing` tells where the step is no common one.
#[inline(always)]
pub fn is_passing<B: Copy>(_kind: Kind, local: &Local<B>, answer: &Answer<B>) -> bool
    requires { CanNext _kind local.now answer.now }
    ensures { result ≡ is_passing_of _kind local.now answer.now }
{
    match local {
        Local::Chain(local) => following::is_passing(local, answer),
        _ => false,
    }
}

/// What a call does next, where it passes from block to block.
#[inline(always)]
pub fn next_passing<B: Copy>(_kind: Kind, local: Local<B>, answer: Answer<B>) -> Next<B>
    requires can { CanNext _kind local answer }
    requires other { is_common_of _kind local answer ≡ false }
    requires passing { is_passing_of _kind local answer ≡ true }
    ensures { result ≡ next_of _kind local answer }
{
    match local {
        Local::Chain(local) => following::next_passing(local, answer),
        _ => unreachable!(),
    }
}

/// Whether a call walks over a block, as `next_walk` tells.
#[inline(always)]
pub fn is_walk<B: Copy>(_kind: Kind, local: &Local<B>, answer: &Answer<B>) -> bool
    requires { CanNext _kind local.now answer.now }
    ensures { result ≡ is_walk_of _kind local.now answer.now }
{
    match local {
        Local::Chain(local) => following::is_walk(local, answer),
        _ => false,
    }
}

/// What a call does next, where it walks over a block.
#[inline(always)]
pub fn next_walk<B: Copy>(_kind: Kind, local: Local<B>, answer: Answer<B>) -> Next<B>
    requires can { CanNext _kind local answer }
    requires walk { is_walk_of _kind local answer ≡ true }
    ensures { result ≡ next_of _kind local answer }
{
    match local {
        Local::Chain(local) => following::next_walk(local, answer),
        _ => unreachable!(),
    }
}
