//! Queues with one owner.
ghost use Rattle.std.specs.Prelude.{◌≡◌, ◌⊎◌, ◌+◌, ◌<◌, ◌≤◌, ◌==◌, if◌then◌else◌, true, false, not, [], ◌∷◌, ◌++◌, length, None, Some, Err, IfOk, IfErr, IfSome, OnOk, IsErr, IsOk};
ghost use Rattle.std.specs.Option.{option_to_list};
ghost use Rattle.queue_steps.specs.declared.sizes.TheConstants.{LIMIT, MAX_CAPACITY};
ghost use Rattle.queue_steps.specs.State.{start, is_full};
ghost use Rattle.queue_steps.specs.Replies.{is_empty};
ghost use Rattle.queue_steps.specs.Sequential.{Sequential, HoldsBlocks, fresh, counted};
ghost use Rattle.queue_steps.specs.Errors.{push_error_value, force_push_error_value};
ghost use Rattle.queue_steps.specs.declared.errors.PopError.TheVariants as pop;
ghost use Rattle.queue_steps.specs.declared.errors.PushError.TheVariants as push;
ghost use Rattle.queue_steps.specs.declared.errors.ForcePushError.TheVariants as force;
ghost use Rattle.queue_steps.specs.Legal.{IsSoundOwned};
ghost use Rattle.own_cells.specs.OneSlot.OwnSlotCells.{IsIdle, slot_owned};
ghost use Rattle.own_cells.specs.OneRing.RingOwned.{IsIdle as IsRingIdle, ring_owned};
ghost use Rattle.own_cells.specs.OneChain.OwnChainOwned.{IsIdle as IsOwnChainIdle, own_chain_owned};
ghost use Rattle.exclusive_queue.specs.QueueText.{exclusive_text};
ghost use Rattle.call_driver.specs.Apart.{FitsCall, SequentialApart};
ghost use Rattle.queue_steps.specs.declared.model.Call.TheVariants as call;
ghost use Rattle.queue_steps.specs.declared.model.Reply.TheVariants as reply;

use crate::calls::sealed::Sealed;
use crate::calls::store::Store;
use crate::text::write_queue;
use call_driver::own::drive_in_loop;
use own_cells::chain::own_chain::OwnChain;
use own_cells::ring::own_ring::OwnRing;
use own_cells::slot::own_slot::OwnSlot;
use queue_steps::errors::{ForcePushError, PopError, PushError};
use queue_steps::model::{Call, CallKind, Reply, ReplyKind};
use std::alloc::{AllocError, Allocator, Global};
use std::fmt;
use std::marker::Model;

mod collecting;
mod form;
mod iter;
mod reading;

use form::Form;
pub use iter::TryIter;
pub use reading::{IntoIter, Iter};

/// A queue with one owner, first in first out, that can be closed.
///
/// A contract sees the abstract queue and the number of blocks that it holds. Each call answers by the table of one owner, `Sequential`.
pub struct Exclusive<T, A: Allocator = Global> {
    form: Form<T, A>,
}

impl<T, A: Allocator> Model for Exclusive<T, A> {
    ghost use Rattle.queue_steps.specs.Sequential.{Owned};

    ghost Value = { Owned T };

    ghost use Rattle.exclusive_queue.specs.Exclusive.{exclusive_view, IsExclusive};

    ghost view = { exclusive_view };

    ghost invariant = { IsExclusive };
}

impl<T: Drop, A: Allocator> Drop for Exclusive<T, A> {
    fn drop(self) {
        let Exclusive { form } = self;
        match form {
            Form::Slot(single) => drop(single),
            Form::Ring(ring) => drop(ring),
            Form::Chain(blocks) => give_up(blocks),
        }
    }
}

impl<T, A: Allocator> fmt::Debug for Exclusive<T, A> {
    ghost debug_output = { λ q. Some (exclusive_text q) };

    fn fmt<W: fmt::Write>(&self, f: &mut fmt::Formatter<W>) -> fmt::Result {
        write_queue(
            f,
            "Exclusive",
            self.len(),
            self.capacity(),
            self.is_closed(),
        )
    }
}

/// Drops the items that are left, and gives all memory back.
fn give_up<T: Drop, A: Allocator>(mut blocks: OwnChain<T, A>)
    requires { IsOwnChainIdle blocks }
{
    loop {
        match drive_in_loop::<OwnChain<T, A>>(&mut blocks, Call::Pop) {
            Reply::Pop(result) => match result {
                Ok(item) => drop(item),
                Err(_) => break,
            },
            _ => unreachable!(),
        }
    }
    blocks.end();
}

impl<T, A: Allocator> Sealed<T> for Exclusive<T, A> {
    ghost idle = { λ _. Unit {0} };

    ghost owned = { λ queue. queue };

    #[inline(always)]
    fn settle<W>(&mut self, call: CallKind, carried: &mut Option<T>) -> ReplyKind
        requires whole { FitsCall call carried.old }
        ensures idle { Unit {0} }
        ensures sequential { SequentialApart self.old call carried.old result carried.new self.new }
    {
        self.form.settle::<W>(call, carried)
    }

    #[inline(always)]
    fn look(&self, call: CallKind) -> ReplyKind {
        self.form.look(call)
    }

    fn show_sound(&self) {
        let _ = &self.form;
    }
}

impl<T, A: Allocator + Clone> Exclusive<T, A> {
    /// An empty open queue of this capacity.
    ///
    /// A queue of capacity 1 asks for no memory. Any other asks for all its memory here.
    ///
    /// # Errors
    ///
    /// Where there is no memory. A capacity above `MAX_CAPACITY`, or one whose slots are more bytes than one allocation may have, is refused without a request.
    pub fn bounded(alloc: A, cap: usize) -> Result<Self, AllocError>
        requires { 0 < cap }
        ensures empty { IfOk result (λ queue. queue ≡ fresh (Some cap)) }
        ensures limited { MAX_CAPACITY < cap → IsErr result }
        ensures single { cap ≡ 1 → IsOk result }
    {
        prove!(cap > 0, "the capacity is above 0");
        if cap == 1 {
            return Ok(Exclusive {
                form: Form::Slot(OwnSlot::new()),
            });
        }
        Exclusive::bounded_after(alloc, cap, 0)
    }

    /// An empty open queue of this capacity, whose positions stand as after `n` items that were accepted and taken.
    ///
    /// # Errors
    ///
    /// As `bounded`.
    pub fn bounded_after(alloc: A, cap: usize, n: u64) -> Result<Self, AllocError>
        requires many { 1 < cap }
        requires below { n ≤ LIMIT }
        ensures empty { IfOk result (λ queue. queue ≡ record { queue = start (Some cap) n; blocks = 0 }) }
        ensures limited { MAX_CAPACITY < cap → IsErr result }
    {
        prove!(cap > 1, "the capacity is above 1");
        let ring = OwnRing::new(alloc, cap, n)?;
        Ok(Exclusive {
            form: Form::Ring(ring),
        })
    }
}

impl<T, A: Allocator> Exclusive<T, A> {
    /// An empty open queue without a capacity.
    ///
    /// It asks for no memory. Pushes do, for a block of `BLOCK_SLOTS` items at a time.
    pub fn unbounded(alloc: A) -> Self
        ensures { result ≡ fresh None }
    {
        Exclusive {
            form: Form::Chain(OwnChain::new(alloc)),
        }
    }

    /// An empty open queue without a capacity, whose positions stand as after `n` items that were accepted and taken.
    ///
    /// It asks for the block where the next item goes, and for none where `n` is 0.
    ///
    /// # Errors
    ///
    /// Where there is no memory, and without a request where an item has 2^31 bytes or more.
    pub fn unbounded_after(alloc: A, n: u64) -> Result<Self, AllocError>
        requires { n ≤ LIMIT }
        ensures empty { IfOk result (λ queue. queue ≡ record { queue = start None n; blocks = (if n == 0 then 0 else 1) }) }
        ensures none { n ≡ 0 → IsOk result }
    {
        if n == 0 {
            return Ok(Exclusive::unbounded(alloc));
        }
        let blocks = OwnChain::after(alloc, n)?;
        Ok(Exclusive {
            form: Form::Chain(blocks),
        })
    }

    /// A queue of this slot, which no call holds.
    pub fn of_slot(single: OwnSlot<T>) -> Self
        requires { IsIdle single }
        ensures { result ≡ slot_owned single }
    {
        Exclusive {
            form: Form::Slot(single),
        }
    }

    /// A queue of this ring, which no call holds.
    pub fn of_ring(ring: OwnRing<T, A>) -> Self
        requires { IsRingIdle ring }
        ensures { result ≡ ring_owned ring }
    {
        Exclusive {
            form: Form::Ring(ring),
        }
    }

    /// A queue of this chain, which no call holds.
    pub fn of_chain(chain: OwnChain<T, A>) -> Self
        requires { IsOwnChainIdle chain }
        ensures { result ≡ own_chain_owned chain }
    {
        Exclusive {
            form: Form::Chain(chain),
        }
    }

    /// Does nothing. Its contract tells what holds of every queue with one owner: nothing is on its way in, the items fit into the capacity, no more than
    /// `LIMIT` were accepted, and the blocks are as many as a queue in this state holds.
    pub fn show_sound(&self)
        ensures { IsSoundOwned self.now }
    {
        Sealed::show_sound(self);
    }

    /// Appends `value`.
    ///
    /// A queue without a capacity asks for a block before the first item, where it holds none, and where it has accepted `BLOCK_SLOTS - 1` items modulo `BLOCK_SLOTS`. No other call asks for memory.
    ///
    /// # Errors
    ///
    /// `Closed` with the value on a closed queue, `Full` with the value on a full one, `NoMemory` with the value where a block was asked for and refused. A queue that has accepted `LIMIT` items answers `Closed`, and is closed from then on.
    #[tactic(auto, using(crate::proofs::Outcomes::push_ok, crate::proofs::Outcomes::push_full, crate::proofs::Outcomes::push_closed, crate::proofs::Outcomes::push_memory, crate::proofs::Outcomes::push_back, crate::proofs::Outcomes::push_capacity))]
    pub fn push(&mut self, value: T) -> Result<(), PushError<T>>
        ensures table { Sequential self.old (call.Push value) (reply.Push result) self.new }
        ensures ok { OnOk result ((self.new.queue.items ≡ self.old.queue.items ++ value ∷ []) × (self.new.queue.accepted ≡ counted self.old.queue) × (self.new.queue.closed ≡ false)) }
        ensures full { result ≡ Err (push.Full value) → (self.old.queue.cap ≡ Some (length self.old.queue.items)) × (self.new.queue ≡ self.old.queue) }
        ensures closed { result ≡ Err (push.Closed value) → ((self.old.queue.closed ≡ true) ⊎ (self.old.queue.accepted ≡ LIMIT)) × (self.new.queue ≡ record self.old.queue { closed = true }) }
        ensures memory { result ≡ Err (push.NoMemory value) → (self.old.queue.cap ≡ None) × (self.new ≡ self.old) }
        ensures back { IfErr result (λ why. push_error_value why ≡ value) }
        ensures capacity { self.new.queue.cap ≡ self.old.queue.cap }
    {
        Store::push(self, value)
    }

    /// Appends `value`, and takes the front off and hands it out where the queue was full.
    ///
    /// On a queue without a capacity it is `push`.
    ///
    /// # Errors
    ///
    /// `Closed` with the value on a closed queue, `NoMemory` with the value where a block was asked for and refused.
    #[tactic(auto, using(crate::proofs::Outcomes::force_ok, crate::proofs::Outcomes::force_full, crate::proofs::Outcomes::force_closed, crate::proofs::Outcomes::force_memory, crate::proofs::Outcomes::force_back, crate::proofs::Outcomes::force_capacity))]
    pub fn force_push(&mut self, value: T) -> Result<Option<T>, ForcePushError<T>>
        ensures table { Sequential self.old (call.ForcePush value) (reply.ForcePush result) self.new }
        ensures ok { IfOk result (λ gone. (option_to_list gone ++ self.new.queue.items ≡ self.old.queue.items ++ value ∷ []) × (self.new.queue.accepted ≡ counted self.old.queue) × (self.new.queue.closed ≡ false)) }
        ensures full { IfOk result (λ gone. IfSome gone (λ front. self.old.queue.cap ≡ Some (length self.old.queue.items))) }
        ensures closed { result ≡ Err (force.Closed value) → ((self.old.queue.closed ≡ true) ⊎ (self.old.queue.accepted ≡ LIMIT)) × (self.new.queue ≡ record self.old.queue { closed = true }) }
        ensures memory { result ≡ Err (force.NoMemory value) → (self.old.queue.cap ≡ None) × (self.new ≡ self.old) }
        ensures back { IfErr result (λ why. force_push_error_value why ≡ value) }
        ensures capacity { self.new.queue.cap ≡ self.old.queue.cap }
    {
        Store::force_push(self, value)
    }

    /// Takes the front off.
    ///
    /// # Errors
    ///
    /// On an empty queue `Empty`, or `Closed` if it is closed.
    #[tactic(auto, using(crate::proofs::Outcomes::pop_ok, crate::proofs::Outcomes::pop_empty, crate::proofs::Outcomes::pop_closed))]
    pub fn pop(&mut self) -> Result<T, PopError>
        ensures table { Sequential self.old call.Pop (reply.Pop result) self.new }
        ensures ok { IfOk result (λ item. self.old.queue ≡ record self.new.queue { items = item ∷ self.new.queue.items }) }
        ensures empty { result ≡ Err pop.Empty → (self.old.queue.items ≡ []) × (self.old.queue.closed ≡ false) × (self.new.queue ≡ self.old.queue) }
        ensures closed { result ≡ Err pop.Closed → (self.old.queue.items ≡ []) × (self.old.queue.closed ≡ true) × (self.new.queue ≡ self.old.queue) }
    {
        Store::pop(self)
    }

    /// Closes the queue, and tells whether this call did it. The items stay.
    pub fn close(&mut self) -> bool
        ensures table { Sequential self.old call.Close (reply.Close result) self.new }
        ensures first { result ≡ not self.old.queue.closed }
        ensures closed { self.new.queue ≡ record self.old.queue { closed = true } }
    {
        Store::close(self)
    }

    /// Whether the queue is closed.
    pub fn is_closed(&self) -> bool
        ensures { result ≡ self.now.queue.closed }
    {
        Store::is_closed(self)
    }

    /// Whether the queue has no item.
    pub fn is_empty(&self) -> bool
        ensures { result ≡ is_empty self.now.queue.items }
    {
        Store::is_empty(self)
    }

    /// Whether the queue has as many items as its capacity.
    pub fn is_full(&self) -> bool
        ensures { result ≡ is_full self.now.queue }
    {
        Store::is_full(self)
    }

    /// The number of items.
    pub fn len(&self) -> usize
        ensures { result ≡ length self.now.queue.items }
    {
        Store::len(self)
    }

    /// The capacity in items, or none.
    pub fn capacity(&self) -> Option<usize>
        ensures { result ≡ self.now.queue.cap }
    {
        Store::capacity(self)
    }

    /// The number of blocks that the queue holds: those from the front's to the one where the next item goes, and none where the queue has a capacity.
    pub fn blocks(&self) -> usize
        ensures count { result ≡ self.now.blocks }
        ensures held { HoldsBlocks self.now }
    {
        match &self.form {
            Form::Slot(_) => 0,
            Form::Ring(_) => 0,
            Form::Chain(blocks) => blocks.blocks(),
        }
    }
}
