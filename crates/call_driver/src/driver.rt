//! The driver of a call: it asks for the next step, has it done where such steps are done, and asks again, until the reply.
//!
//! A call takes fast steps first, which stand one after another. At any other step it leaves them: on a chain for the steps of a block's end, and then for a loop.
ghost use Rattle.std.specs.Prelude.{◌≡◌, ℕ, suc, true};
ghost use Rattle.queue_steps.specs.declared.model.Call.{Call as SpecCall};
ghost use Rattle.queue_steps.specs.declared.sizes.TheConstants.{STEPS_ALONE};
ghost use Rattle.queue_steps.specs.Kinds.{call_kind, call_value};
ghost use Rattle.queue_steps.specs.WaitFree.{is_wait_free};
ghost use Rattle.call_driver.specs.Apart.{IsCall, FitsCall};
ghost use Rattle.call_driver.specs.OnWay.{OnWay, EndsWith};

use crate::fast::Row;
use crate::gate::Gate;
use crate::progress::Progress;
use crate::retry::finish_alone;
use crate::site::{AloneSite, SharedSite, Site};
use crate::steps::end;
use queue_steps::model::{Call, CallKind, Reply, ReplyKind};
use queue_steps::sizes::WAIT_FREE_STEPS;
use queue_steps::steps::{Answer, Kind, KindSteps, Local, Next};
use std::ops::ControlFlow;

/// A call on its way, before its first step.
#[inline(always)]
pub fn begin<M: Site>(
    site: &M::Shared,
    seat: &M::Seat,
    call: CallKind,
) -> (Kind, Progress<M::Block>)
    requires { M.rests site.now seat.now }
    ensures kind { M.Steps.has_kind result.0 }
    ensures begun { (whole : SpecCall M.Item) (n : ℕ) → call ≡ call_kind whole → suc n ≡ STEPS_ALONE → OnWay M.Site n result.0 call site.now seat.now whole result.1 (call_value whole) seat.now }
{
    let kind = M::kind(site, seat);
    let local: Local<M::Block> = queue_steps::steps::start(kind, call);
    (
        kind,
        Progress {
            local,
            answer: Answer::Start,
        },
    )
}

/// Runs a call of one owner to its end, after the fast steps `F`.
///
/// The place of the value that the call carries is lent, and then holds what it ends with.
#[inline(always)]
pub fn drive<M: AloneSite, G: Gate, F: Row<M, G>>(
    site: &M::Shared,
    gate: &G,
    seat: &mut M::Seat,
    call: CallKind,
    carried: &mut Option<M::Item>,
) -> ReplyKind
    requires rests { M.rests site.now seat.old }
    requires whole { FitsCall call carried.old }
    ensures { (c : SpecCall M.Item) → IsCall call carried.old c → EndsWith M.Site site.now seat.old c carried.new seat.new result }
{
    let (kind, mut progress) = begin::<M>(site, seat, call);
    match F::run(site, gate, kind, call, seat, &mut progress, carried) {
        ControlFlow::Break(reply) => reply,
        ControlFlow::Continue(()) => {
            finish_alone::<M, G>(site, gate, kind, call, seat, &progress, carried)
        }
    }
}

/// Runs a wait-free call to its end. That this comes by its second step is the site's law (`wait_free` of `SharedSite`).
#[inline(always)]
pub fn drive_wait_free<M: SharedSite, G: Gate>(
    site: &M::Shared,
    gate: &G,
    seat: &mut M::Seat,
    call: Call<M::Item>,
) -> Reply<M::Item>
    requires rests { M.rests site.now seat.old }
    requires wait_free { is_wait_free call ≡ true }
    ensures { M.ended site.now seat.old call result seat.new }
{
    let kind = M::kind(site, seat);
    let (call, mut carried) = call.split();
    let mut local: Local<M::Block> = queue_steps::steps::start(kind, call);
    let mut answer: Answer<M::Block> = Answer::Start;
    for _ in 0..WAIT_FREE_STEPS + 1 {
        let todo = M::Steps::next(kind, local, answer);
        match todo {
            Next::Reply(reply, spare) => {
                end::<M>(site, seat, spare);
                return Reply::fill(reply, carried);
            }
            Next::Step(after, touch, op) => {
                gate.pass(&op);
                answer = M::take_step(site, seat, &call, &after, touch, op, &mut carried);
                local = after;
            }
        }
    }
    unreachable!()
}
