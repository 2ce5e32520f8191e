//! Two threads push, each as a party. Then the queue has one owner again.
#![tactic(auto)]

ghost use Rattle.std.specs.Prelude.{◌≡◌};
ghost use Rattle.concurrent_queue.specs.Shared.{IsPartyOf};

use concurrent_queue::{ConcurrentQueue, Party};
use std::io;
use std::sync::Wait;
use std::thread::join;

/// Pushes a hundred numbers.
fn send_all(rt: &impl Wait, queue: &ConcurrentQueue<u64>, mut party: Party<u64>) -> Party<u64>
    requires { IsPartyOf party queue.now }
    ensures { IsPartyOf result queue.now × (result.view.share ≡ party.view.share) }
{
    for next in 0..100 {
        if queue.push(rt, &mut party, next).is_err() {
            break;
        }
    }
    party
}

fn main(rt: HostRuntime) -> io::Result<()> {
    let (queue, party) = ConcurrentQueue::unbounded(rt.alloc())?;
    let Ok((one, two)) = queue.split(party) else {
        unreachable!()
    };
    let (one, two) = join(
        &rt,
        || send_all(&rt, &queue, one),
        || send_all(&rt, &queue, two),
    );
    let party = queue.join(one, two);
    let Ok(owned) = queue.finish(party) else {
        unreachable!()
    };
    println!(rt; "{}", owned.len())
}
