//! Where the steps of calls are done, for the driver.
ghost use Rattle.std.specs.Prelude.{◌≡◌, ℕ, zero, suc, true, Option};
ghost use Rattle.queue_steps.specs.declared.model.Call.{Call as SpecCall};
ghost use Rattle.queue_steps.specs.declared.model.Reply.{Reply as SpecReply};
ghost use Rattle.queue_steps.specs.declared.steps.types.Kind.{Kind as SpecKind};
ghost use Rattle.queue_steps.specs.declared.steps.types.Op.{Op as SpecOp};
ghost use Rattle.queue_steps.specs.declared.steps.types.Touch.{Touch as SpecTouch};
ghost use Rattle.queue_steps.specs.declared.steps.types.Answer.{Answer as SpecAnswer};
ghost use Rattle.queue_steps.specs.declared.steps.types.Local.{Local as SpecLocal};
ghost use Rattle.queue_steps.specs.Kinds.{call_kind};
ghost use Rattle.queue_steps.specs.WaitFree.{is_wait_free, EndsWaitFree};
ghost use Rattle.call_driver.specs.Leads.{Begins, GoesOn};

use queue_steps::model::CallKind;
use queue_steps::steps::{Answer, Kind, KindSteps, Local, Op, Touch};

/// Where the steps of calls are done: what the parties share, and a seat, with which each does its own steps.
pub trait Site {
    /// What the parties share.
    type Shared;

    /// What the queue holds.
    type Item;

    /// What a block is named by.
    type Block: Copy;

    /// What a step is done with: the cells of one owner, or a party's seat.
    type Seat;

    /// Which steps the calls take.
    type Steps: KindSteps;

    /// The kind of the queue.
    ghost kind_of: { Self.Shared → Self.Seat → SpecKind };

    /// No call is on its way by this seat, which is one of this queue's.
    ghost rests: { Self.Shared → Self.Seat → Type 0 };

    /// The seat may do this step with what the call carries.
    ghost can: { Self.Shared → Self.Seat → SpecCall Unit → SpecLocal Self.Block → SpecTouch → SpecOp Self.Block → Option Self.Item → Type 0 };

    /// What the step answers, and what it leaves of the seat and of what the call carries.
    ghost does: { Self.Shared → Self.Seat → SpecCall Unit → SpecLocal Self.Block → SpecTouch → SpecOp Self.Block → Option Self.Item → SpecAnswer Self.Block → Self.Seat → Option Self.Item → Type 0 };

    /// The seat may give up this block, which a reply hands out.
    ghost spares: { Self.Shared → Self.Seat → Self.Block → Type 0 };

    /// What giving up the block leaves of the seat.
    ghost gives: { Self.Shared → Self.Seat → Self.Block → Self.Seat → Type 0 };

    /// Where a call stands that the seat began, once its last operation was answered, if it ends before so many more steps.
    ghost stands: { ℕ → Self.Shared → Self.Seat → SpecCall Self.Item → SpecLocal Self.Block → SpecAnswer Self.Block → Self.Seat → Option Self.Item → Type 0 };

    /// How a call ends that the seat began.
    ghost ended: { Self.Shared → Self.Seat → SpecCall Self.Item → SpecReply Self.Item → Self.Seat → Type 0 };

    fn kind(site: &Self::Shared, seat: &Self::Seat) -> Kind
        ensures { result ≡ kind_of site.now seat.now };

    /// One step: the touch of a slot, and then the operation.
    fn take_step(
        site: &Self::Shared,
        seat: &mut Self::Seat,
        call: &CallKind,
        local: &Local<Self::Block>,
        touch: Touch,
        op: Op<Self::Block>,
        carried: &mut Option<Self::Item>,
    ) -> Answer<Self::Block>
        requires may { can site.now seat.old call.now local.now touch op carried.old }
        ensures { does site.now seat.old call.now local.now touch op carried.old result seat.new carried.new };

    /// Gives up a block that a reply hands out.
    fn give_up(site: &Self::Shared, seat: &mut Self::Seat, block: Self::Block)
        requires may { spares site.now seat.old block }
        ensures { gives site.now seat.old block seat.new };

    /// The steps are those of the kind.
    ghost steps_fit: { (m : Self.Shared) (s : Self.Seat) → Self.Steps.has_kind (kind_of m s) };

    /// A call that begins leads on, and ends within the steps that a call takes at most which runs alone.
    ghost begins: { (m : Self.Shared) (s : Self.Seat) (c : SpecCall Self.Item) → rests m s → Begins can does spares gives stands ended (kind_of m s) m s c };

    /// Wherever a call stands, it leads on.
    ghost goes_on: { (n : ℕ) (m : Self.Shared) (first : Self.Seat) (c : SpecCall Self.Item) (l : SpecLocal Self.Block) (a : SpecAnswer Self.Block) (s : Self.Seat) (x : Option Self.Item) → stands (suc n) m first c l a s x → GoesOn can does spares gives stands ended n (kind_of m first) m first c l a s x };

    /// A call that ends before n more steps does so before one more.
    ghost more: { (n : ℕ) (m : Self.Shared) (first : Self.Seat) (c : SpecCall Self.Item) (l : SpecLocal Self.Block) (a : SpecAnswer Self.Block) (s : Self.Seat) (x : Option Self.Item) → stands n m first c l a s x → stands (suc n) m first c l a s x };
}

/// A site where nobody else does steps: each call ends within a number of steps.
pub trait AloneSite: Site {
    /// No call ends before no step.
    ghost ends: { (m : Self.Shared) (first : Self.Seat) (c : SpecCall Self.Item) (l : SpecLocal Self.Block) (a : SpecAnswer Self.Block) (s : Self.Seat) (x : Option Self.Item) → Self.stands zero m first c l a s x → ⊥ };
}

/// A site where many parties do their steps.
pub trait SharedSite: Site {
    /// The wait-free calls end by their second step.
    ghost wait_free: { (m : Self.Shared) (s : Self.Seat) (c : SpecCall Self.Item) → is_wait_free c ≡ true → EndsWaitFree Self.Block (Self.kind_of m s) (call_kind c) };
}
