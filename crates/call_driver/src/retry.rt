//! The loops in which a call takes the steps that are rare, and tries again.
ghost use Rattle.std.specs.Prelude.{◌≡◌, ◌-◌, ℕ, true};
ghost use Rattle.queue_steps.specs.declared.model.Call.{Call as SpecCall};
ghost use Rattle.queue_steps.specs.declared.sizes.TheConstants.{STEPS_ALONE};
ghost use Rattle.queue_steps.specs.CommonNext.{is_walk_of};
ghost use Rattle.call_driver.specs.OnWay.{OnWay, IsUnderWay, TakesStep, EndsWith};

use crate::fast::pass_block_end;
use crate::gate::Gate;
use crate::progress::Progress;
use crate::site::{AloneSite, Site};
use crate::steps::{any_step, walking_step};
use queue_steps::model::{CallKind, ReplyKind};
use queue_steps::sizes::{BLOCK_SLOTS, STEPS_ALONE};
use queue_steps::steps::{Kind, KindSteps, blocks};
use std::mem;
use std::ops::ControlFlow;

/// The steps of a call that walks over a block, until it does another. The compiler knows in this loop where the call stands.
#[inline(always)]
fn walk<M: Site, G: Gate>(
    site: &M::Shared,
    gate: &G,
    kind: Kind,
    call: CallKind,
    seat: &mut M::Seat,
    progress: Progress<M::Block>,
    carried: &mut Option<M::Item>,
) -> ControlFlow<ReplyKind, Progress<M::Block>>
    requires walk { is_walk_of kind progress.local progress.answer ≡ true }
    requires on_way { (n : ℕ) × IsUnderWay M.Site n kind call site.now progress carried.old seat.old }
    ensures { TakesStep M.Site kind call site.now progress carried.old seat.old carried.new seat.new result }
{
    let mut progress = match walking_step::<M, G, 1>(
        site, gate, kind, call, seat, progress, carried,
    ) {
        ControlFlow::Break(reply) => return ControlFlow::Break(reply),
        ControlFlow::Continue(after) => after,
    };
    for _ in 0..BLOCK_SLOTS {
        if !blocks::is_walk(kind, &progress.local, &progress.answer) {
            break;
        }
        match walking_step::<M, G, 2>(site, gate, kind, call, seat, progress, carried) {
            ControlFlow::Break(reply) => return ControlFlow::Break(reply),
            ControlFlow::Continue(after) => progress = after,
        }
    }
    ControlFlow::Continue(progress)
}

/// One round of a loop. The walk over a block is most of what a call does there that meets no other.
#[inline(always)]
pub fn retry<M: Site, G: Gate>(
    site: &M::Shared,
    gate: &G,
    kind: Kind,
    call: CallKind,
    seat: &mut M::Seat,
    progress: Progress<M::Block>,
    carried: &mut Option<M::Item>,
) -> ControlFlow<ReplyKind, Progress<M::Block>>
    requires kind { M.Steps.has_kind kind }
    requires on_way { (n : ℕ) × IsUnderWay M.Site n kind call site.now progress carried.old seat.old }
    ensures { TakesStep M.Site kind call site.now progress carried.old seat.old carried.new seat.new result }
{
    if M::Steps::has_blocks() && blocks::is_walk(kind, &progress.local, &progress.answer) {
        walk::<M, G>(site, gate, kind, call, seat, progress, carried)
    } else {
        any_step::<M, G>(site, gate, kind, call, seat, progress, carried)
    }
}

/// The loop of a call of one owner, which comes to its end within a number of steps.
fn retry_alone<M: AloneSite, G: Gate>(
    site: &M::Shared,
    gate: &G,
    kind: Kind,
    call: CallKind,
    seat: &mut M::Seat,
    progress: Progress<M::Block>,
    carried: &mut Option<M::Item>,
) -> ReplyKind
    requires kind { M.Steps.has_kind kind }
    requires on_way { IsUnderWay M.Site (STEPS_ALONE - 1) kind call site.now progress carried.old seat.old }
    ensures { (c : SpecCall M.Item) (first : M.Seat) → OnWay M.Site (STEPS_ALONE - 1) kind call site.now first c progress carried.old seat.old → EndsWith M.Site site.now first c carried.new seat.new result }
{
    let mut progress = progress;
    for _ in 0..STEPS_ALONE {
        match retry::<M, G>(site, gate, kind, call, seat, progress, carried) {
            ControlFlow::Break(reply) => return reply,
            ControlFlow::Continue(after) => progress = after,
        }
    }
    unreachable!()
}

/// Tells the steps of a block's end here from those of a party's calls.
struct Alone;

/// The steps of a call of one owner that are not known to be common, to its end: those of a block's end, and then the loop.
#[cold]
#[inline(never)]
fn go_on_alone<M: AloneSite, G: Gate>(
    site: &M::Shared,
    gate: &G,
    kind: Kind,
    call: CallKind,
    seat: &mut M::Seat,
    progress: Progress<M::Block>,
    carried: &mut Option<M::Item>,
) -> ReplyKind
    requires kind { M.Steps.has_kind kind }
    requires on_way { IsUnderWay M.Site (STEPS_ALONE - 1) kind call site.now progress carried.old seat.old }
    ensures { (c : SpecCall M.Item) (first : M.Seat) → OnWay M.Site (STEPS_ALONE - 1) kind call site.now first c progress carried.old seat.old → EndsWith M.Site site.now first c carried.new seat.new result }
{
    let mut progress = progress;
    match pass_block_end::<M, G, Alone>(site, gate, kind, call, seat, &mut progress, carried) {
        ControlFlow::Break(reply) => reply,
        ControlFlow::Continue(()) => {
            retry_alone::<M, G>(site, gate, kind, call, seat, progress, carried)
        }
    }
}

/// Runs a call of one owner to its end that has left its fast steps. What the cold function is handed is made here, part by part, so that the fast steps write none of it. The carried value goes to a place of its own and back: the place that the fast steps are lent is never handed on, and a word stays in a register there.
#[inline(always)]
pub fn finish_alone<M: AloneSite, G: Gate>(
    site: &M::Shared,
    gate: &G,
    kind: Kind,
    call: CallKind,
    seat: &mut M::Seat,
    progress: &Progress<M::Block>,
    carried: &mut Option<M::Item>,
) -> ReplyKind
    requires kind { M.Steps.has_kind kind }
    requires on_way { IsUnderWay M.Site (STEPS_ALONE - 1) kind call site.now progress.now carried.old seat.old }
    ensures { (c : SpecCall M.Item) (first : M.Seat) → OnWay M.Site (STEPS_ALONE - 1) kind call site.now first c progress.now carried.old seat.old → EndsWith M.Site site.now first c carried.new seat.new result }
{
    let left = Progress {
        local: progress.local,
        answer: progress.answer,
    };
    let mut own = carried.take();
    let reply = go_on_alone::<M, G>(site, gate, kind, call, seat, left, &mut own);
    let none = mem::replace(carried, own);
    let None = none else { unreachable!() };
    reply
}
