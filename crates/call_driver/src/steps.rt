//! One step of a call: what its kind of queue asks for next is done at the site, and tells where the call then stands, or its reply.
ghost use Rattle.std.specs.Prelude.{◌≡◌, ℕ, true, false};
ghost use Rattle.queue_steps.specs.CommonNext.{is_common_of, is_passing_of, is_walk_of};
ghost use Rattle.call_driver.specs.Leads.{MayGive, Gave};
ghost use Rattle.call_driver.specs.OnWay.{IsUnderWay, TakesStep};

use crate::gate::Gate;
use crate::progress::Progress;
use crate::site::Site;
use queue_steps::model::{CallKind, ReplyKind};
use queue_steps::steps::{Kind, KindSteps, Next, blocks};
use std::ops::ControlFlow;

/// Gives up the block that a reply hands out.
#[inline(always)]
pub(crate) fn end<M: Site>(site: &M::Shared, seat: &mut M::Seat, spare: Option<M::Block>)
    requires may { MayGive M.spares site.now seat.old spare }
    ensures { Gave M.gives site.now seat.old spare seat.new }
{
    if let Some(block) = spare {
        M::give_up(site, seat, block);
    }
}

/// Does what the call does next. A function that takes a `Next` would have it in memory.
macro_rules! take_step {
    ($site:ident, $gate:ident, $call:ident, $seat:ident, $todo:ident, $carried:ident) => {
        match $todo {
            Next::Reply(reply, spare) => {
                end::<M>($site, $seat, spare);
                ControlFlow::Break(reply)
            }
            Next::Step(after, touch, op) => {
                $gate.pass(&op);
                let answer = M::take_step($site, $seat, &$call, &after, touch, op, $carried);
                ControlFlow::Continue(Progress {
                    local: after,
                    answer,
                })
            }
        }
    };
}

/// A step that most calls are made of: one that finds room, or an item, and meets no other call.
///
/// The compiler puts a private function where its only call stands. `R` tells the calls of this one apart, so that each is a function of its own.
#[inline(always)]
pub(crate) fn fast_step<M: Site, G: Gate, R>(
    site: &M::Shared,
    gate: &G,
    kind: Kind,
    call: CallKind,
    seat: &mut M::Seat,
    progress: Progress<M::Block>,
    carried: &mut Option<M::Item>,
) -> ControlFlow<ReplyKind, Progress<M::Block>>
    requires common { is_common_of kind progress.local progress.answer ≡ true }
    requires on_way { (n : ℕ) × IsUnderWay M.Site n kind call site.now progress carried.old seat.old }
    ensures { TakesStep M.Site kind call site.now progress carried.old seat.old carried.new seat.new result }
{
    let Progress { local, answer } = progress;
    let todo = M::Steps::next_common(kind, local, answer);
    take_step!(site, gate, call, seat, todo, carried)
}

/// A step from block to block. `R` tells the calls of this one apart.
#[inline(always)]
pub(crate) fn passing_step<M: Site, G: Gate, R>(
    site: &M::Shared,
    gate: &G,
    kind: Kind,
    call: CallKind,
    seat: &mut M::Seat,
    progress: Progress<M::Block>,
    carried: &mut Option<M::Item>,
) -> ControlFlow<ReplyKind, Progress<M::Block>>
    requires other { is_common_of kind progress.local progress.answer ≡ false }
    requires passing { is_passing_of kind progress.local progress.answer ≡ true }
    requires on_way { (n : ℕ) × IsUnderWay M.Site n kind call site.now progress carried.old seat.old }
    ensures { TakesStep M.Site kind call site.now progress carried.old seat.old carried.new seat.new result }
{
    let Progress { local, answer } = progress;
    let todo = blocks::next_passing(kind, local, answer);
    take_step!(site, gate, call, seat, todo, carried)
}

/// A step of the walk over a block. `AT` tells the calls of this one apart.
#[inline(always)]
pub(crate) fn walking_step<M: Site, G: Gate, const AT: u64>(
    site: &M::Shared,
    gate: &G,
    kind: Kind,
    call: CallKind,
    seat: &mut M::Seat,
    progress: Progress<M::Block>,
    carried: &mut Option<M::Item>,
) -> ControlFlow<ReplyKind, Progress<M::Block>>
    requires walk { is_walk_of kind progress.local progress.answer ≡ true }
    requires on_way { (n : ℕ) × IsUnderWay M.Site n kind call site.now progress carried.old seat.old }
    ensures { TakesStep M.Site kind call site.now progress carried.old seat.old carried.new seat.new result }
{
    let Progress { local, answer } = progress;
    let todo = blocks::next_walk(kind, local, answer);
    take_step!(site, gate, call, seat, todo, carried)
}

/// A step, whatever it is.
#[inline(always)]
pub(crate) fn any_step<M: Site, G: Gate>(
    site: &M::Shared,
    gate: &G,
    kind: Kind,
    call: CallKind,
    seat: &mut M::Seat,
    progress: Progress<M::Block>,
    carried: &mut Option<M::Item>,
) -> ControlFlow<ReplyKind, Progress<M::Block>>
    requires { (n : ℕ) × IsUnderWay M.Site n kind call site.now progress carried.old seat.old }
    ensures { TakesStep M.Site kind call site.now progress carried.old seat.old carried.new seat.new result }
{
    let Progress { local, answer } = progress;
    let todo = M::Steps::next(kind, local, answer);
    take_step!(site, gate, call, seat, todo, carried)
}
