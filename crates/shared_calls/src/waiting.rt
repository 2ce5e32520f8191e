//! A party's call that may wait for another party's: how it begins, where it gives way, and where it has lost an exchange.
ghost use Rattle.std.specs.ControlFlow.{MatchControlFlow};
ghost use Rattle.shared_calls.specs.Leaving.{IsLeft};

use crate::left::Left;
use call_driver::driver::begin;
use call_driver::fast::Row;
use call_driver::gate::Gate;
use call_driver::progress::Progress;
use call_driver::site::Site;
use queue_steps::model::{Call, Reply};
use queue_steps::steps::{ChainLocal, Local, RingLocal};
use std::ops::ControlFlow;

/// Whether a call that stood there, and then here, has met another one half done, so that it tries again: a stamp is not stored yet, another call moves on to
/// the next block, or an item is not written yet. A call that finds one slot locked is not among them: it tries again at once.
#[inline(always)]
pub fn must_give_way<B: Copy>(before: &Local<B>, after: &Local<B>) -> bool {
    match (before, after) {
        (Local::Ring(before), Local::Ring(after)) => match (before, after) {
            (RingLocal::PushStamp(_, _), RingLocal::PushTail(_)) => true,
            (RingLocal::PopStamp(_), RingLocal::PopHead) => true,
            _ => false,
        },
        (Local::Chain(before), Local::Chain(after)) => match (before, after) {
            (ChainLocal::PushTail(_, _), ChainLocal::PushTail(_, _)) => true,
            (ChainLocal::PopHead, ChainLocal::PopHead) => true,
            (ChainLocal::Following(_, _), ChainLocal::Following(_, _)) => true,
            (ChainLocal::Awaiting(_, _), ChainLocal::Awaiting(_, _)) => true,
            _ => false,
        },
        _ => false,
    }
}

/// Whether a call that stood there, and then here, has lost an exchange to another one, so that it tries again. A call on one slot is not among them: it tries again at once.
#[inline(always)]
pub fn has_lost<B: Copy>(before: &Local<B>, after: &Local<B>) -> bool {
    match (before, after) {
        (Local::Ring(before), Local::Ring(after)) => match (before, after) {
            (RingLocal::Claiming(_, _), RingLocal::PushTail(_) | RingLocal::PushStamp(_, _)) => {
                true
            }
            (RingLocal::Taking(_), RingLocal::PopHead | RingLocal::PopStamp(_)) => true,
            _ => false,
        },
        (Local::Chain(before), Local::Chain(after)) => match (before, after) {
            (
                ChainLocal::Claiming(_, _, _, _),
                ChainLocal::PushTail(_, _) | ChainLocal::PushBlock(_, _, _),
            ) => true,
            (ChainLocal::Taking(_, _), ChainLocal::PopHead | ChainLocal::PopBlock(_)) => true,
            _ => false,
        },
        _ => false,
    }
}

/// Begins a call and takes its fast steps `F`. The reply is put together here, so that the compiler knows its kind where the fast steps end.
///
/// It does not wait. Behind each call of what may wait there is a test whether it came back, so nothing that may has the fast steps within it.
#[inline(always)]
pub fn run_fast<M: Site, G: Gate, F: Row<M, G>>(
    site: &M::Shared,
    gate: &G,
    seat: &mut M::Seat,
    call: Call<M::Item>,
) -> ControlFlow<Reply<M::Item>, Left<M::Item, M::Block>>
    requires rests { M.rests site.now seat.old }
    ensures { MatchControlFlow result (λ left. IsLeft M.Site site.now seat.old call left seat.new) (λ reply. M.ended site.now seat.old call reply seat.new) }
{
    let (call, mut carried) = call.split();
    let (kind, mut progress) = begin::<M>(site, seat, call);
    match F::run(site, gate, kind, call, seat, &mut progress, &mut carried) {
        ControlFlow::Break(reply) => ControlFlow::Break(Reply::fill(reply, carried)),
        // Part by part: a `Progress` that is moved whole is written by each fast step.
        ControlFlow::Continue(()) => ControlFlow::Continue(Left {
            kind,
            call,
            progress: Progress {
                local: progress.local,
                answer: progress.answer,
            },
            carried,
        }),
    }
}
