//! A push that asks a gate before each of its operations.
ghost use Rattle.std.specs.Prelude.{◌≡◌};
ghost use Rattle.queue_steps.specs.declared.model.Call.TheVariants as call;
ghost use Rattle.concurrent_queue.specs.Shared.{Calls, IsPartyOf};
ghost use Rattle.counted_channel.specs.QueueCalls.Calls.{pushed};
ghost use Rattle.counted_channel.specs.QueueCalls.Looks.{FullKeepsTicket};

use crate::calls::waited::{Pushed, Room, WaitedQueue};
use call_driver::gate::Gate;
use concurrent_queue::model::{Call, Reply};
use concurrent_queue::{NullTestable, Party};
use event_count::Look;
use shared_chain::source::Granting;
use std::sync::Wait;

/// Tells the fast steps of these pushes from those of others.
pub struct AtGate;

impl<T, A: NullTestable> WaitedQueue<T, A> {
    /// Pushes as [`WaitedQueue::push`] does. The gate is asked before each operation, and may hold the push there.
    pub fn push_at<'a, R: Wait, G: Gate>(
        &'a self,
        rt: &R,
        gate: &G,
        party: &mut Party<T>,
        value: T,
        look: Look<'a, Room>,
    ) -> Pushed<'a, T>
        requires { IsPartyOf party.old self.now.queue }
        ensures called { Calls party.old (call.Push value) (pushed result) party.new }
        ensures ticket { FullKeepsTicket look.entry result }
    {
        let call = Call::Push(value);
        let answer = match self
            .queue
            .answer::<Granting, R, G, AtGate>(rt, gate, party, call)
        {
            Reply::Push(answer) => answer,
            _ => unreachable!(),
        };
        self.after_push(party, answer, look)
    }
}
