//! Steps that stand one after another, so that the compiler knows in each where the call stands.
//!
//! They are made of types, one inside another, so that each is a function of its own with one place where it is called: there the compiler puts it.
ghost use Rattle.std.specs.Prelude.{◌≡◌, ℕ};
ghost use Rattle.call_driver.specs.OnWay.{IsUnderWay, StaysOnWay};

use crate::gate::Gate;
use crate::progress::Progress;
use crate::site::Site;
use crate::steps::{fast_step, passing_step};
use queue_steps::model::{CallKind, ReplyKind};
use queue_steps::steps::stages::{
    ASKING, AWAITING, CHAINING, CLAIMING, ENTERING, FOLLOWING, LAYING, OPENING, PASSING, PEEKING,
    PUSH_BLOCK, TAKING, is_at,
};
use queue_steps::steps::{Kind, KindSteps, blocks};
use std::marker::PhantomData;
use std::ops::ControlFlow;

/// Steps one after another, until there is a reply or no more of them.
///
/// How far the call is is lent to them: if they returned it, each way out of a step would write it to memory.
pub trait Row<M: Site, G: Gate> {
    fn run(
        site: &M::Shared,
        gate: &G,
        kind: Kind,
        call: CallKind,
        seat: &mut M::Seat,
        progress: &mut Progress<M::Block>,
        carried: &mut Option<M::Item>,
    ) -> ControlFlow<ReplyKind>
        requires kind { M.Steps.has_kind kind }
        requires on_way { (n : ℕ) × IsUnderWay M.Site n kind call site.now progress.old carried.old seat.old }
        ensures { StaysOnWay M.Site kind call site.now progress.old carried.old seat.old progress.new carried.new seat.new result };
}

/// No more steps. `W` tells the rows of one caller from another's.
pub struct Rest<W> {
    told_apart: PhantomData<W>,
}

impl<M: Site, G: Gate, W> Row<M, G> for Rest<W> {
    #[inline(always)]
    fn run(
        _site: &M::Shared,
        _gate: &G,
        _kind: Kind,
        _call: CallKind,
        _seat: &mut M::Seat,
        _progress: &mut Progress<M::Block>,
        _carried: &mut Option<M::Item>,
    ) -> ControlFlow<ReplyKind> {
        ControlFlow::Continue(())
    }
}

/// A common step, and then those of `R`. Any other step ends the row.
pub struct Fast<R> {
    rest: PhantomData<R>,
}

impl<M: Site, G: Gate, R: Row<M, G>> Row<M, G> for Fast<R> {
    #[inline(always)]
    fn run(
        site: &M::Shared,
        gate: &G,
        kind: Kind,
        call: CallKind,
        seat: &mut M::Seat,
        progress: &mut Progress<M::Block>,
        carried: &mut Option<M::Item>,
    ) -> ControlFlow<ReplyKind>
        requires kind { M.Steps.has_kind kind }
        requires on_way { (n : ℕ) × IsUnderWay M.Site n kind call site.now progress.old carried.old seat.old }
        ensures { StaysOnWay M.Site kind call site.now progress.old carried.old seat.old progress.new carried.new seat.new result }
    {
        if !M::Steps::is_common(kind, &progress.local, &progress.answer) {
            return ControlFlow::Continue(());
        }
        let now = Progress {
            local: progress.local,
            answer: progress.answer,
        };
        match fast_step::<M, G, R>(site, gate, kind, call, seat, now, carried) {
            ControlFlow::Break(reply) => ControlFlow::Break(reply),
            ControlFlow::Continue(after) => {
                *progress = after;
                R::run(site, gate, kind, call, seat, progress, carried)
            }
        }
    }
}

/// A step from block to block of a call that stands at `STAGE`, and then those of `R`. Any other step ends the row.
pub struct AtStage<const STAGE: u64, R> {
    rest: PhantomData<R>,
}

impl<M: Site, G: Gate, const STAGE: u64, R: Row<M, G>> Row<M, G> for AtStage<STAGE, R> {
    #[inline(always)]
    fn run(
        site: &M::Shared,
        gate: &G,
        kind: Kind,
        call: CallKind,
        seat: &mut M::Seat,
        progress: &mut Progress<M::Block>,
        carried: &mut Option<M::Item>,
    ) -> ControlFlow<ReplyKind>
        requires kind { M.Steps.has_kind kind }
        requires on_way { (n : ℕ) × IsUnderWay M.Site n kind call site.now progress.old carried.old seat.old }
        ensures { StaysOnWay M.Site kind call site.now progress.old carried.old seat.old progress.new carried.new seat.new result }
    {
        if !is_at(STAGE, &progress.local)
            || M::Steps::is_common(kind, &progress.local, &progress.answer)
            || !blocks::is_passing(kind, &progress.local, &progress.answer)
        {
            return ControlFlow::Continue(());
        }
        let now = Progress {
            local: progress.local,
            answer: progress.answer,
        };
        match passing_step::<M, G, R>(site, gate, kind, call, seat, now, carried) {
            ControlFlow::Break(reply) => ControlFlow::Break(reply),
            ControlFlow::Continue(after) => {
                *progress = after;
                R::run(site, gate, kind, call, seat, progress, carried)
            }
        }
    }
}

/// As many common steps as each push takes that finds room, and each pop that finds an item, where no block begins or ends and no other call is met. `W` is the caller's.
pub type Usual<W> = Fast<Fast<Fast<Fast<Fast<Fast<Fast<Rest<W>>>>>>>>;

/// As many as each of them takes on a ring.
pub type OfRing<W> = Fast<Fast<Fast<Fast<Fast<Rest<W>>>>>>;

/// As many common steps as a call on one slot takes that meets no other call.
pub type Short<W> = Fast<Fast<Fast<Rest<W>>>>;

/// The steps of a push that lays a block. The last is a common one.
type Lays<W> = AtStage<
    PUSH_BLOCK,
    AtStage<
        ASKING,
        AtStage<CLAIMING, AtStage<LAYING, AtStage<OPENING, AtStage<CHAINING, Fast<Rest<W>>>>>>,
    >,
>;

/// The steps of a pop that comes to the next block.
type Passes<W> = AtStage<
    TAKING,
    AtStage<
        FOLLOWING,
        AtStage<PEEKING, AtStage<PASSING, AtStage<ENTERING, AtStage<AWAITING, Rest<W>>>>>,
    >,
>;

/// The steps of a call that comes to a block's end. The compiler knows in those of each arm where the call stands, and drops them all where there are no blocks. `W` is the caller's.
#[inline(always)]
pub fn pass_block_end<M: Site, G: Gate, W>(
    site: &M::Shared,
    gate: &G,
    kind: Kind,
    call: CallKind,
    seat: &mut M::Seat,
    progress: &mut Progress<M::Block>,
    carried: &mut Option<M::Item>,
) -> ControlFlow<ReplyKind>
    requires kind { M.Steps.has_kind kind }
    requires on_way { (n : ℕ) × IsUnderWay M.Site n kind call site.now progress.old carried.old seat.old }
    ensures { StaysOnWay M.Site kind call site.now progress.old carried.old seat.old progress.new carried.new seat.new result }
{
    if !M::Steps::has_blocks() {
        ControlFlow::Continue(())
    } else if is_at(PUSH_BLOCK, &progress.local) {
        <Lays<W> as Row<M, G>>::run(site, gate, kind, call, seat, progress, carried)
    } else if is_at(TAKING, &progress.local) {
        <Passes<W> as Row<M, G>>::run(site, gate, kind, call, seat, progress, carried)
    } else {
        ControlFlow::Continue(())
    }
}
