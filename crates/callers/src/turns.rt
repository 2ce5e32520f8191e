//! A call that is begun, and resumed so many times at most.
ghost use Rattle.concurrent_queue.specs.Shared.{IsPartyOf};
ghost use Rattle.concurrent_queue.specs.Comes.{Comes};

use concurrent_queue::model::Call;
use concurrent_queue::{ConcurrentQueue, Outcome, Party};

/// Begins a call, and resumes it until its reply, but so many times at most. No turn waits.
pub fn in_turns(
    queue: &ConcurrentQueue<u64>,
    party: Party<u64>,
    call: Call<u64>,
    turns: u64,
) -> Outcome<u64>
    requires { IsPartyOf party queue.now }
    ensures { Comes party call result }
{
    let mut outcome = queue.begin(party, call);
    for _ in 0..turns {
        match outcome {
            Outcome::Done(party, reply) => return Outcome::Done(party, reply),
            Outcome::Pending(pending) => outcome = queue.resume(pending),
        }
    }
    outcome
}
