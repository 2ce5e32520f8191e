//! A party's call that has left its fast steps: it carries on until its reply, or until it has met another call half done, and then stands where it is. One that may wait carries on again, until its reply.
ghost use Rattle.call_driver.specs.Leads.{MayGive, Gave};
ghost use Rattle.call_driver.specs.OnWay.{Stood};
ghost use Rattle.queue_steps.specs.declared.model.Call.{Call as SpecCall};
ghost use Rattle.queue_steps.specs.declared.sizes.TheConstants.{STEPS_ALONE};
ghost use Rattle.shared_calls.specs.Halts.{next_at, is_early_step};
ghost use Rattle.shared_calls.specs.Leaving.{IsLeft};
ghost use Rattle.shared_calls.specs.Pausing.{IsStood, IsPaused};
ghost use Rattle.shared_calls.specs.Settling.{left_at, MayWait};
ghost use Rattle.std.specs.ControlFlow.{MatchControlFlow};
ghost use Rattle.std.specs.Prelude.{◌≡◌, ◌≤◌, ◌-◌, true};

use crate::early::is_early;
use crate::left::Left;
use crate::waiting::{has_lost, must_give_way};
use call_driver::fast::pass_block_end;
use call_driver::gate::Gate;
use call_driver::progress::Progress;
use call_driver::retry::retry;
use call_driver::site::Site;
use crossbeam_utils::Backoff;
use queue_steps::model::{Call, CallKind, Reply};
use queue_steps::sizes::STEPS_ALONE;
use queue_steps::steps::{Kind, KindSteps, Next};
use std::ops::ControlFlow;
use std::sync::Wait;
use std::thread::yield_now;

/// How many steps a call takes at most from its effect on, its reply with them, but for a pop on a chain.
const SETTLE_STEPS: usize = 5;

/// Gives up the block that a reply hands out.
fn give_back<M: Site>(site: &M::Shared, seat: &mut M::Seat, spare: Option<M::Block>)
    requires may { MayGive M.spares site.now seat.old spare }
    ensures { Gave M.gives site.now seat.old spare seat.new }
{
    if let Some(block) = spare {
        M::give_up(site, seat, block);
    }
}

/// What is next of a call that has taken a step: its reply, or else it stands there.
fn pause<M: Site>(
    site: &M::Shared,
    kind: Kind,
    call: CallKind,
    seat: &mut M::Seat,
    progress: Progress<M::Block>,
    carried: Option<M::Item>,
) -> ControlFlow<Reply<M::Item>, Left<M::Item, M::Block>>
    requires kind { M.Steps.has_kind kind }
    requires stood { (c : SpecCall M.Item) × (first : M.Seat) × Stood M.Site (STEPS_ALONE - 1) kind call site.now first c progress carried seat.old }
    ensures { (c : SpecCall M.Item) (first : M.Seat) → Stood M.Site (STEPS_ALONE - 1) kind call site.now first c progress carried seat.old → MatchControlFlow result (λ left. IsPaused M.Site site.now first c left seat.new) (λ reply. M.ended site.now first c reply seat.new) }
{
    let todo = M::Steps::next(kind, progress.local, progress.answer);
    match todo {
        Next::Reply(reply, spare) => {
            give_back::<M>(site, seat, spare);
            ControlFlow::Break(Reply::fill(reply, carried))
        }
        Next::Step(_, _, _) => ControlFlow::Continue(Left {
            kind,
            call,
            progress,
            carried,
        }),
    }
}

/// Tells the steps of a block's end here from those of one owner's calls.
struct Pauses;

/// Takes the steps of a call that comes to a block's end, if it does.
#[inline(always)]
fn leave_block_end<M: Site, G: Gate>(
    site: &M::Shared,
    gate: &G,
    seat: &mut M::Seat,
    left: Left<M::Item, M::Block>,
) -> ControlFlow<Reply<M::Item>, Left<M::Item, M::Block>>
    requires kind { M.Steps.has_kind left.kind }
    requires left { (c : SpecCall M.Item) × (first : M.Seat) × IsLeft M.Site site.now first c left seat.old }
    ensures kept { MatchControlFlow result (λ on. on.kind ≡ left.kind) (λ reply. Unit {0}) }
    ensures left { (c : SpecCall M.Item) (first : M.Seat) → IsLeft M.Site site.now first c left seat.old → MatchControlFlow result (λ on. IsLeft M.Site site.now first c on seat.new) (λ reply. M.ended site.now first c reply seat.new) }
{
    let Left {
        kind,
        call,
        mut progress,
        mut carried,
    } = left;
    match pass_block_end::<M, G, Pauses>(
        site,
        gate,
        kind,
        call,
        seat,
        &mut progress,
        &mut carried,
    ) {
        ControlFlow::Break(reply) => ControlFlow::Break(Reply::fill(reply, carried)),
        ControlFlow::Continue(()) => ControlFlow::Continue(Left {
            kind,
            call,
            progress,
            carried,
        }),
    }
}

/// Pauses where a call has lost an exchange, longer each time, so that those that lost do not all try again at once.
#[inline(always)]
fn back_off(backoff: &Backoff, has_lost: bool) {
    if has_lost {
        backoff.spin();
    }
}

/// The rounds of `carry_on`: at most as many as a call takes steps that runs alone.
fn go_round<M: Site, G: Gate>(
    site: &M::Shared,
    gate: &G,
    seat: &mut M::Seat,
    left: Left<M::Item, M::Block>,
) -> ControlFlow<Reply<M::Item>, Left<M::Item, M::Block>>
    requires kind { M.Steps.has_kind left.kind }
    requires left { (c : SpecCall M.Item) × (first : M.Seat) × IsLeft M.Site site.now first c left seat.old }
    ensures { (c : SpecCall M.Item) (first : M.Seat) → IsLeft M.Site site.now first c left seat.old → MatchControlFlow result (λ paused. IsPaused M.Site site.now first c paused seat.new) (λ reply. M.ended site.now first c reply seat.new) }
{
    let Left {
        kind,
        call,
        progress,
        mut carried,
    } = left;
    let backoff = Backoff::new();
    let mut before = progress.local;
    let mut progress = match retry::<M, G>(site, gate, kind, call, seat, progress, &mut carried) {
        ControlFlow::Break(reply) => return ControlFlow::Break(Reply::fill(reply, carried)),
        ControlFlow::Continue(after) => after,
    };
    for _ in 1..STEPS_ALONE {
        if must_give_way(&before, &progress.local) {
            break;
        }
        back_off(&backoff, has_lost(&before, &progress.local));
        before = progress.local;
        match retry::<M, G>(site, gate, kind, call, seat, progress, &mut carried) {
            ControlFlow::Break(reply) => return ControlFlow::Break(Reply::fill(reply, carried)),
            ControlFlow::Continue(after) => progress = after,
        }
    }
    pause::<M>(site, kind, call, seat, progress, carried)
}

/// Takes steps of a call until its reply, or until it has met another call half done. Those of a block's end come first, one after another.
pub fn carry_on<M: Site, G: Gate>(
    site: &M::Shared,
    gate: &G,
    seat: &mut M::Seat,
    left: Left<M::Item, M::Block>,
) -> ControlFlow<Reply<M::Item>, Left<M::Item, M::Block>>
    requires kind { M.Steps.has_kind left.kind }
    requires left { (c : SpecCall M.Item) × (first : M.Seat) × IsLeft M.Site site.now first c left seat.old }
    ensures { (c : SpecCall M.Item) (first : M.Seat) → IsLeft M.Site site.now first c left seat.old → MatchControlFlow result (λ paused. IsPaused M.Site site.now first c paused seat.new) (λ reply. M.ended site.now first c reply seat.new) }
{
    match leave_block_end::<M, G>(site, gate, seat, left) {
        ControlFlow::Break(reply) => ControlFlow::Break(reply),
        ControlFlow::Continue(left) => go_round::<M, G>(site, gate, seat, left),
    }
}

/// What a call does next, where it has had an effect; or it stands where it has had none.
fn settle_step<M: Site, G: Gate>(
    site: &M::Shared,
    gate: &G,
    seat: &mut M::Seat,
    left: Left<M::Item, M::Block>,
) -> ControlFlow<Reply<M::Item>, Left<M::Item, M::Block>>
    requires kind { M.Steps.has_kind left.kind }
    requires stood { (c : SpecCall M.Item) × (first : M.Seat) × IsStood M.Site site.now first c left seat.old }
    ensures stood { (c : SpecCall M.Item) (first : M.Seat) → IsStood M.Site site.now first c left seat.old → MatchControlFlow result (λ on. IsStood M.Site site.now first c on seat.new) (λ reply. M.ended site.now first c reply seat.new) }
    ensures nearer { ¬ (MayWait left.kind (next_at left)) → MatchControlFlow result (λ on. ¬ (MayWait on.kind (next_at on)) × (left_at (next_at on) ≤ 4) × (left_at (next_at on) ≤ left_at (next_at left) - 1)) (λ reply. Unit {0}) }
{
    let Left {
        kind,
        call,
        progress,
        mut carried,
    } = left;
    let todo = M::Steps::next(kind, progress.local, progress.answer);
    match todo {
        Next::Reply(reply, spare) => {
            give_back::<M>(site, seat, spare);
            ControlFlow::Break(Reply::fill(reply, carried))
        }
        Next::Step(local, touch, op) => {
            if is_early(&local) {
                return ControlFlow::Continue(Left {
                    kind,
                    call,
                    progress,
                    carried,
                });
            }
            gate.pass(&op);
            let answer = M::take_step(site, seat, &call, &local, touch, op, &mut carried);
            ControlFlow::Continue(Left {
                kind,
                call,
                progress: Progress { local, answer },
                carried,
            })
        }
    }
}

/// Takes steps of a call until its reply, or until it stands where it has had no effect: at most as many as a call takes behind its effect, but for a pop on a
/// chain, which may have to wait.
pub fn settle<M: Site, G: Gate>(
    site: &M::Shared,
    gate: &G,
    seat: &mut M::Seat,
    left: Left<M::Item, M::Block>,
) -> ControlFlow<Reply<M::Item>, Left<M::Item, M::Block>>
    requires kind { M.Steps.has_kind left.kind }
    requires stood { (c : SpecCall M.Item) × (first : M.Seat) × IsStood M.Site site.now first c left seat.old }
    ensures stood { (c : SpecCall M.Item) (first : M.Seat) → IsStood M.Site site.now first c left seat.old → MatchControlFlow result (λ on. IsStood M.Site site.now first c on seat.new) (λ reply. M.ended site.now first c reply seat.new) }
    ensures early { ¬ (MayWait left.kind (next_at left)) → MatchControlFlow result (λ on. is_early_step (next_at on) ≡ true) (λ reply. Unit {0}) }
{
    let mut left = left;
    for turn in 0..SETTLE_STEPS {
        let _ = turn;
        match settle_step::<M, G>(site, gate, seat, left) {
            ControlFlow::Break(reply) => return ControlFlow::Break(reply),
            ControlFlow::Continue(on) => left = on,
        }
    }
    ControlFlow::Continue(left)
}

/// The loop of `wait_out`: the call carries on until it would wait, gives way to other threads, and carries on again.
#[cold]
#[inline(never)]
fn carry_through<M: Site, G: Gate, R: Wait>(
    rt: &R,
    site: &M::Shared,
    gate: &G,
    seat: &mut M::Seat,
    left: Left<M::Item, M::Block>,
) -> Reply<M::Item>
    requires kind { M.Steps.has_kind left.kind }
    requires left { (c : SpecCall M.Item) × (first : M.Seat) × IsLeft M.Site site.now first c left seat.old }
    ensures { (c : SpecCall M.Item) (first : M.Seat) → IsLeft M.Site site.now first c left seat.old → M.ended site.now first c result seat.new }
{
    let mut left = left;
    for _ in rt.forever() {
        match carry_on::<M, G>(site, gate, seat, left) {
            ControlFlow::Break(reply) => return reply,
            ControlFlow::Continue(paused) => {
                yield_now();
                left = paused;
            }
        }
    }
    unreachable!()
}

/// Runs a call to its end that has left its fast steps.
///
/// What a function lends of its own is cleared where it begins. So this one, which is in place, lends the loop a copy, and the fast steps clear nothing.
#[inline(always)]
pub fn wait_out<M: Site, G: Gate, R: Wait>(
    rt: &R,
    site: &M::Shared,
    gate: &G,
    seat: &mut M::Seat,
    left: Left<M::Item, M::Block>,
) -> Reply<M::Item>
    requires kind { M.Steps.has_kind left.kind }
    requires left { (c : SpecCall M.Item) × (first : M.Seat) × IsLeft M.Site site.now first c left seat.old }
    ensures { (c : SpecCall M.Item) (first : M.Seat) → IsLeft M.Site site.now first c left seat.old → M.ended site.now first c result seat.new }
{
    carry_through::<M, G, R>(rt, site, gate, seat, left.apart())
}
