//! A caller that displaces, and knows that it did so at one moment.
ghost use Rattle.std.specs.Prelude.{IfSome};
ghost use Rattle.concurrent_queue.specs.Shared.{IsPartyOf};
ghost use Rattle.callers.specs.Displaced.{DisplacedAtOnce};

use concurrent_queue::{ConcurrentQueue, Party};
use std::sync::Wait;

/// Puts `value` into a queue that may have other parties, and gives what it displaced where the queue was full.
///
/// The item that it gives and `value` changed places at one moment of this call, whatever the other parties do meanwhile.
pub fn displace<R: Wait>(
    rt: &R,
    queue: &ConcurrentQueue<u64>,
    party: &mut Party<u64>,
    value: u64,
) -> Option<u64>
    requires { IsPartyOf party.old queue.now }
    ensures of { IsPartyOf party.new queue.now }
    ensures once { IfSome result (λ old. DisplacedAtOnce queue.now.cap party.old.view party.new.view old value) }
{
    match queue.force_push(rt, party, value) {
        Ok(out) => out,
        Err(_) => None,
    }
}
