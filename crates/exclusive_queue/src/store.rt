//! Runs of calls of a queue with one owner, however it keeps its items.
ghost use Rattle.std.specs.Prelude.{◌≡◌, MatchResult};
ghost use Rattle.queue_steps.specs.Sequential.{SequentialRun};

pub use crate::calls::store::Store;
use crate::calls::store::answer;
use queue_steps::model::{Call, Reply};
use std::alloc::{AllocError, Allocator};

/// Makes the calls one after another, and gives one reply for each, in their order. Room for all replies is made first.
///
/// # Errors
///
/// Where there is no memory for the replies, and without a request where they are more bytes than one allocation may have. No call was made
/// then: the store is as it was, and the values in `calls` are given up.
pub fn run<T: Drop, S: Store<T>, A: Allocator>(
    alloc: A,
    store: &mut S,
    calls: Vec<Call<T>, A>,
) -> Result<Vec<Reply<T>, A>, AllocError>
    requires { S.idle store.old }
    ensures idle { S.idle store.new }
    ensures ran { MatchResult result
        (λ replies. SequentialRun (S.owned store.old) calls.items replies.items (S.owned store.new))
        (λ _. store.new ≡ store.old) }
{
    let mut replies = Vec::with_capacity(alloc, calls.len())?;
    for call in calls {
        replies.push_reserved(answer(store, call));
    }
    Ok(replies)
}
