//! Calls of one owner, whose cells are done with alone.
ghost use Rattle.std.specs.Prelude.{◌≡◌};
ghost use Rattle.queue_steps.specs.Sequential.{Sequential};
ghost use Rattle.queue_steps.specs.Looks.{IsLook, look_reply};
ghost use Rattle.call_driver.specs.Apart.{FitsCall, SequentialApart};
ghost use Rattle.call_driver.specs.Own.{MayTake, Took};

use crate::cells::OwnCells;
use crate::driver::drive as drive_at;
use crate::fast::{Rest, Usual};
use crate::gate::Open;
use crate::site::{AloneSite, Site};
use queue_steps::model::{Call, CallKind, Reply, ReplyKind};
use queue_steps::sizes::STEPS_ALONE;
use queue_steps::steps::{Answer, Kind, KindSteps, Local, Next, Op, Touch};
use std::marker::PhantomData;

/// One owner. What the steps of its calls are done with is the cells themselves, and nothing is shared.
pub struct Own<C> {
    of: PhantomData<C>,
}

impl<C: OwnCells> Site for Own<C> {
    type Shared = ();

    type Item = C::Item;

    type Block = C::Block;

    type Seat = C;

    type Steps = C::Steps;

    ghost use Rattle.call_driver.specs.Own.{EndsRightFrom, Ended};
    ghost use Rattle.call_driver.specs.Laws.OwnLeads.{own_begins, own_goes_on, own_more};

    ghost kind_of = { λ _ cells. C.kind_of cells };

    ghost rests = { λ _ cells. C.idle cells };

    ghost can = { λ _ cells _ _ t o x. MayTake C.can_touch C.touches C.can_perform C.performs cells t o x };

    ghost does = { λ _ cells _ _ t o x a after left. Took C.can_touch C.touches C.can_perform C.performs cells t o x a after left };

    ghost spares = { λ _ cells block. C.can_release cells block };

    ghost gives = { λ _ cells block after. C.releases cells block after };

    ghost stands = { λ n _ first c l a cells x. EndsRightFrom C.can_touch C.touches C.can_perform C.performs C.can_release C.releases C.idle C.owned C.kind_of n first c l a cells x };

    ghost ended = { λ _ first c reply after. Ended C.idle C.owned first c reply after };

    ghost steps_fit = { λ _ cells. C.steps_fit cells };

    ghost begins = { λ site cells c rests. own_begins C.can_touch C.touches C.can_perform C.performs C.can_release C.releases C.idle C.owned C.kind_of site cells c (C.answers cells c rests) };

    ghost goes_on = { own_goes_on C.can_touch C.touches C.can_perform C.performs C.can_release C.releases C.idle C.owned C.kind_of };

    ghost more = { own_more C.can_touch C.touches C.can_perform C.performs C.can_release C.releases C.idle C.owned C.kind_of };

    #[inline(always)]
    fn kind(_site: &(), cells: &C) -> Kind {
        cells.kind()
    }

    #[inline(always)]
    fn take_step(
        _site: &(),
        cells: &mut C,
        call: &CallKind,
        local: &Local<C::Block>,
        touch: Touch,
        op: Op<C::Block>,
        carried: &mut Option<C::Item>,
    ) -> Answer<C::Block>
        requires may { MayTake C.can_touch C.touches C.can_perform C.performs cells.old touch op carried.old }
        ensures { Took C.can_touch C.touches C.can_perform C.performs cells.old touch op carried.old result cells.new carried.new }
    {
        let _ = call;
        let _ = local;
        cells.touch(touch, &op, carried);
        cells.perform(op)
    }

    #[inline(always)]
    fn give_up(_site: &(), cells: &mut C, block: C::Block) {
        cells.release(block);
    }
}

impl<C: OwnCells> AloneSite for Own<C> {
    ghost ends = { λ _ first c l a cells x stands. stands.1 };
}

/// Runs a call to its end, which comes within the steps that a call alone takes at most. `W` tells a caller's calls apart, so that each has steps of its own.
///
/// The place of the value that the call carries is lent, and then holds what it ends with: as a part of the reply it would be copied at each way out of a step.
#[inline(always)]
pub fn drive<C: OwnCells, W>(
    cells: &mut C,
    call: CallKind,
    carried: &mut Option<C::Item>,
) -> ReplyKind
    requires idle { C.idle cells.old }
    requires whole { FitsCall call carried.old }
    ensures idle { C.idle cells.new }
    ensures sequential { SequentialApart (C.owned cells.old) call carried.old result carried.new (C.owned cells.new) }
{
    drive_at::<Own<C>, Open, Usual<W>>(&(), &Open, cells, call, carried)
}

/// Runs a call to its end, without fast steps.
pub fn drive_in_loop<C: OwnCells>(cells: &mut C, call: Call<C::Item>) -> Reply<C::Item>
    requires { C.idle cells.old }
    ensures idle { C.idle cells.new }
    ensures sequential { Sequential (C.owned cells.old) call result (C.owned cells.new) }
{
    let (call, mut carried) = call.split();
    let reply = drive_at::<Own<C>, Open, Rest<()>>(&(), &Open, cells, call, &mut carried);
    Reply::fill(reply, carried)
}

/// Runs a call that changes nothing to its end.
#[inline(always)]
pub fn observe<C: OwnCells>(cells: &C, call: CallKind) -> ReplyKind
    requires idle { C.idle cells.now }
    requires look { IsLook call }
    ensures { result ≡ look_reply (C.owned cells.now).queue call }
{
    let kind = cells.kind();
    let mut local: Local<C::Block> = queue_steps::steps::start(kind, call);
    let mut answer: Answer<C::Block> = Answer::Start;
    for _ in 0..STEPS_ALONE {
        let todo = C::Steps::next(kind, local, answer);
        match todo {
            Next::Reply(reply, _) => return reply,
            Next::Step(after, _, op) => {
                answer = cells.look(&op);
                local = after;
            }
        }
    }
    unreachable!()
}
