//! Words and slots of one owner, on which the steps of a call are done.
ghost use Rattle.std.specs.Prelude.{◌≡◌, ◌==◌, true, Option, if◌then◌else◌};
ghost use Rattle.queue_steps.specs.declared.model.Call.{Call as SpecCall};
ghost use Rattle.queue_steps.specs.declared.steps.types.Kind.{Kind as SpecKind};
ghost use Rattle.queue_steps.specs.declared.steps.types.Op.{Op as SpecOp};
ghost use Rattle.queue_steps.specs.declared.steps.types.Touch.{Touch as SpecTouch};
ghost use Rattle.queue_steps.specs.declared.steps.types.Answer.{Answer as SpecAnswer};
ghost use Rattle.queue_steps.specs.declared.steps.types.Touch.TheVariants.{Nothing};
ghost use Rattle.queue_steps.specs.Legal.{IsSoundOwned};
ghost use Rattle.queue_steps.specs.Sequential.{Owned};
ghost use Rattle.queue_steps.specs.LookNext.{IsLoad};
ghost use Rattle.call_driver.specs.EndsIn.{EndsRight};

use queue_steps::steps::{Answer, Kind, KindSteps, Op, Touch};

/// Where the steps of the calls of one owner are done.
pub trait OwnCells {
    /// What the queue holds.
    type Item;

    /// What a block is named by.
    type Block: Copy;

    /// Which steps the calls take.
    type Steps: KindSteps;

    /// The kind of the queue.
    ghost kind_of: { Self → SpecKind };

    /// No call is on its way.
    ghost idle: { Self → Type 0 };

    /// The queue that the cells hold when no call is on its way.
    ghost owned: { Self → Owned Self.Item };

    /// The slot may be touched so.
    ghost can_touch: { Self → SpecTouch → SpecOp Self.Block → Type 0 };

    /// What a touch does to the cells and to the value that the call carries.
    ghost touches: { Self → SpecTouch → SpecOp Self.Block → Option Self.Item → Self → Option Self.Item → Type 0 };

    /// The operation may be done.
    ghost can_perform: { Self → SpecOp Self.Block → Type 0 };

    /// What an operation answers, and what it leaves.
    ghost performs: { Self → SpecOp Self.Block → SpecAnswer Self.Block → Self → Type 0 };

    /// The block may be given up.
    ghost can_release: { Self → Self.Block → Type 0 };

    /// What the giving up of a block leaves.
    ghost releases: { Self → Self.Block → Self → Type 0 };

    fn kind(&self) -> Kind
        ensures { result ≡ kind_of self.now };

    /// The slot and the call's own place change their content.
    fn touch(&mut self, touch: Touch, op: &Op<Self::Block>, carried: &mut Option<Self::Item>)
        requires { can_touch self.old touch op.now }
        ensures { touches self.old touch op.now carried.old self.new carried.new };

    /// One operation.
    fn perform(&mut self, op: Op<Self::Block>) -> Answer<Self::Block>
        requires { can_perform self.old op }
        ensures { performs self.old op result self.new };

    /// Gives up a block that a call has done with.
    fn release(&mut self, block: Self::Block)
        requires { can_release self.old block }
        ensures { releases self.old block self.new };

    /// A load, which changes nothing.
    fn look(&self, op: &Op<Self::Block>) -> Answer<Self::Block>
        requires load { IsLoad op.now }
        requires can { can_perform self.now op.now }
        ensures { performs self.now op.now result self.now };

    /// The steps are those of the kind.
    ghost steps_fit: { (cells : Self) → Self.Steps.has_kind (kind_of cells) };

    /// Where nothing is touched, all stays.
    ghost stays: { (cells : Self) (op : SpecOp Self.Block) (carried : Option Self.Item) → touches cells Nothing op carried cells carried };

    /// Between calls the queue is sound.
    ghost sound: { (cells : Self) → idle cells → IsSoundOwned (owned cells) };

    /// Every call ends, with its reply.
    ghost answers: { (cells : Self) (call : SpecCall Self.Item) → idle cells → EndsRight can_touch touches can_perform performs can_release releases idle owned (kind_of cells) call cells };
}

/// Changes a word of one owner that is as expected, and gives what it was.
#[inline(always)]
pub fn exchange(word: &mut u64, expected: u64, new: u64) -> u64
    ensures before { result ≡ word.old }
    ensures after { word.new ≡ if word.old == expected then new else word.old }
{
    let found = *word;
    if found == expected {
        *word = new;
    }
    found
}
