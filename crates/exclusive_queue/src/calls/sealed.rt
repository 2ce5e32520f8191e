//! The forms of a queue with one owner, as what runs calls sees them.
ghost use Rattle.std.specs.Prelude.{◌≡◌};
ghost use Rattle.queue_steps.specs.Legal.{IsSoundOwned};
ghost use Rattle.queue_steps.specs.Looks.{IsLook, look_reply};
ghost use Rattle.queue_steps.specs.Sequential.{Owned};
ghost use Rattle.call_driver.specs.Apart.{FitsCall, SequentialApart};

use call_driver::cells::OwnCells;
use call_driver::own::{drive, observe};
use queue_steps::model::{CallKind, ReplyKind};

/// What keeps the items of a queue with one owner. `exclusive_queue` does not give it on, so who has that crate alone can make no `Store`.
pub trait Sealed<T> {
    /// No call is on its way.
    ghost idle: { Self → Type 0 };

    /// The queue that is kept, where no call is on its way.
    ghost owned: { Self → Owned T };

    /// Runs a call to its end. The place of the value that it carries is lent, and then holds what it ends with. `W` tells the calls apart, so that each has fast steps of its own.
    fn settle<W>(&mut self, call: CallKind, carried: &mut Option<T>) -> ReplyKind
        requires idle { idle self.old }
        requires whole { FitsCall call carried.old }
        ensures idle { idle self.new }
        ensures sequential { SequentialApart (owned self.old) call carried.old result carried.new (owned self.new) };

    /// Runs a call that changes nothing to its end.
    fn look(&self, call: CallKind) -> ReplyKind
        requires idle { idle self.now }
        requires look { IsLook call }
        ensures { result ≡ look_reply (owned self.now).queue call };

    /// Does nothing. Its contract tells what holds between calls.
    fn show_sound(&self)
        requires { idle self.now }
        ensures { IsSoundOwned (owned self.now) };
}

impl<T, C: OwnCells<Item = T>> Sealed<T> for C {
    ghost idle = { C.idle };

    ghost owned = { C.owned };

    #[inline(always)]
    fn settle<W>(&mut self, call: CallKind, carried: &mut Option<T>) -> ReplyKind
        requires idle { C.idle self.old }
        requires whole { FitsCall call carried.old }
        ensures idle { C.idle self.new }
        ensures sequential { SequentialApart (C.owned self.old) call carried.old result carried.new (C.owned self.new) }
    {
        drive::<C, W>(self, call, carried)
    }

    #[inline(always)]
    fn look(&self, call: CallKind) -> ReplyKind {
        observe::<C>(self, call)
    }

    fn show_sound(&self) {}
}
