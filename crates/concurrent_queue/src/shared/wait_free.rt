//! The calls that end by their second step, whatever others do.
ghost use Rattle.std.specs.Prelude.{◌≡◌, true};
ghost use Rattle.queue_steps.specs.declared.model.Call.TheVariants as call;
ghost use Rattle.queue_steps.specs.declared.model.Reply.TheVariants as reply;
ghost use Rattle.queue_steps.specs.WaitFree.{is_wait_free};
ghost use Rattle.concurrent_queue.specs.Shared.{IsPartyOf, Calls};

use crate::party::Party;
use crate::shared::ConcurrentQueue;
use call_driver::gate::{Gate, Open};
use queue_steps::model::{Call, Reply};
use shared_calls::running::WaitFree;
use shared_chain::source::Refusing;
use std::alloc::Allocator;

impl<T, A: Allocator> ConcurrentQueue<T, A> {
    /// Runs a wait-free call to its end, each of its steps at the gate.
    #[inline(always)]
    pub fn answer_wait_free<G: Gate>(
        &self,
        gate: &G,
        party: &mut Party<T>,
        call: Call<T>,
    ) -> Reply<T>
        requires is_party { IsPartyOf party.old self.now }
        requires wait_free { is_wait_free call ≡ true }
        ensures { Calls party.old call result party.new }
    {
        self.form
            .run::<Refusing, _>(&mut party.place, WaitFree { gate, call })
    }

    /// Closes the queue, and tells whether this call did it. The items stay.
    pub fn close(&self, party: &mut Party<T>) -> bool
        requires is_party { IsPartyOf party.old self.now }
        ensures { Calls party.old call.Close (reply.Close result) party.new }
    {
        match self.answer_wait_free(&Open, party, Call::Close) {
            Reply::Close(result) => result,
            _ => unreachable!(),
        }
    }

    /// Whether the queue is closed at a moment of the call.
    pub fn is_closed(&self, party: &mut Party<T>) -> bool
        requires is_party { IsPartyOf party.old self.now }
        ensures { Calls party.old call.IsClosed (reply.IsClosed result) party.new }
    {
        match self.answer_wait_free(&Open, party, Call::IsClosed) {
            Reply::IsClosed(result) => result,
            _ => unreachable!(),
        }
    }

    /// Whether the queue has no item at a moment of the call.
    pub fn is_empty(&self, party: &mut Party<T>) -> bool
        requires is_party { IsPartyOf party.old self.now }
        ensures { Calls party.old call.IsEmpty (reply.IsEmpty result) party.new }
    {
        match self.answer_wait_free(&Open, party, Call::IsEmpty) {
            Reply::IsEmpty(result) => result,
            _ => unreachable!(),
        }
    }

    /// Whether the queue has as many items as its capacity at a moment of the call.
    pub fn is_full(&self, party: &mut Party<T>) -> bool
        requires is_party { IsPartyOf party.old self.now }
        ensures { Calls party.old call.IsFull (reply.IsFull result) party.new }
    {
        match self.answer_wait_free(&Open, party, Call::IsFull) {
            Reply::IsFull(result) => result,
            _ => unreachable!(),
        }
    }
}
