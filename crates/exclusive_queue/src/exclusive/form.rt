//! The three forms of a queue with one owner.
ghost use Rattle.std.specs.Prelude.{◌≡◌};
ghost use Rattle.call_driver.specs.Apart.{FitsCall, SequentialApart};

use crate::calls::sealed::Sealed;
use own_cells::chain::own_chain::OwnChain;
use own_cells::ring::own_ring::OwnRing;
use own_cells::slot::own_slot::OwnSlot;
use queue_steps::model::{CallKind, ReplyKind};
use std::alloc::Allocator;

/// How a queue with one owner keeps its items.
pub(crate) enum Form<T, A: Allocator> {
    /// One slot.
    Slot(OwnSlot<T>),
    /// A ring of slots.
    Ring(OwnRing<T, A>),
    /// A chain of blocks.
    Chain(OwnChain<T, A>),
}

impl<T, A: Allocator> Form<T, A> {
    ghost use Rattle.std.specs.Prelude.{IsTrue};
    ghost use Rattle.queue_steps.specs.Looks.{IsLook, look_reply};
    ghost use Rattle.exclusive_queue.specs.Exclusive.{form_owned, IsFormIdle};

    /// Runs a call to its end. The place of the value that it carries is lent, and then holds what it ends with.
    #[inline(always)]
    pub(crate) fn settle<W>(&mut self, call: CallKind, carried: &mut Option<T>) -> ReplyKind
        requires idle { IsFormIdle self.old }
        requires whole { FitsCall call carried.old }
        ensures idle { IsFormIdle self.new }
        ensures sequential { SequentialApart (form_owned self.old) call carried.old result carried.new (form_owned self.new) }
    {
        // the compiler tests last for what stands first: one slot, which has the fewest steps, is to be found by one test
        match self {
            Form::Ring(ring) => ring.settle::<W>(call, carried),
            Form::Chain(blocks) => blocks.settle::<W>(call, carried),
            Form::Slot(single) => single.settle::<W>(call, carried),
        }
    }

    /// Runs a call that changes nothing to its end.
    #[inline(always)]
    pub(crate) fn look(&self, call: CallKind) -> ReplyKind
        requires idle { IsFormIdle self.now }
        requires look { IsLook call }
        ensures { result ≡ look_reply (form_owned self.now).queue call }
    {
        match self {
            Form::Slot(single) => single.look(call),
            Form::Ring(ring) => ring.look(call),
            Form::Chain(blocks) => blocks.look(call),
        }
    }
}
