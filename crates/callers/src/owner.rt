//! The callers that `exclusive_queue/CALLING.md` and `queue_steps/CALLING.md` show.
ghost use Rattle.std.specs.Prelude.{◌≡◌, ◌≢◌, ◌<◌, ℕ, List, [], ◌∷◌, ◌++◌, false, None, Some, IfOk, IfErr};
ghost use Rattle.queue_steps.specs.declared.sizes.TheConstants.{LIMIT};
ghost use Rattle.queue_steps.specs.declared.errors.PushError.TheVariants as push;
ghost use Rattle.queue_steps.specs.declared.steps.types.Next.TheVariants as next;
ghost use Rattle.queue_steps.specs.declared.steps.types.Local.TheVariants as local;
ghost use Rattle.queue_steps.specs.declared.steps.types.Touch.TheVariants as touch;
ghost use Rattle.queue_steps.specs.declared.steps.types.Op.TheVariants as op;
ghost use Rattle.queue_steps.specs.declared.steps.types.Word.TheVariants as word;
ghost use Rattle.queue_steps.specs.declared.steps.slot.SlotLocal.TheVariants as slot;

use exclusive_queue::model::Call;
use exclusive_queue::steps::{Answer, Kind, Next};
use exclusive_queue::{Exclusive, PushError};
use std::alloc::{AllocError, Allocator};

/// Puts `value` through a queue of one slot, and gives what comes out of it.
pub fn through_a_slot<A: Allocator + Clone>(alloc: A, value: u64) -> Result<Option<u64>, AllocError>
    ensures { IfOk result (λ out. out ≡ Some value) }
{
    let mut queue: Exclusive<u64, A> = Exclusive::bounded(alloc, 1)?;
    let _ = queue.push(value);
    Ok(queue.pop().ok())
}

/// Puts `value` through a queue without a capacity, and gives what comes out of it, or hands the value back where there is no memory for a block.
pub fn through_a_chain<A: Allocator>(alloc: A, value: u64) -> Result<u64, PushError<u64>>
    ensures out { IfOk result (λ out. out ≡ value) }
    ensures lost { IfErr result (λ error. error ≡ push.NoMemory value) }
{
    let mut queue: Exclusive<u64, A> = Exclusive::unbounded(alloc);
    queue.push(value)?;
    match queue.pop() {
        Ok(item) => Ok(item),
        Err(_) => unreachable!(),
    }
}

/// Puts two values into a queue, takes one off by an iterator, which is then dropped, and gives it and what was left.
pub fn one_of_two<A: Allocator + Clone>(
    alloc: A,
    one: u64,
    two: u64,
) -> Result<(Option<u64>, Option<u64>), AllocError>
    ensures { IfOk result (λ out. out ≡ (Some one, Some two)) }
{
    let mut queue: Exclusive<u64, A> = Exclusive::bounded(alloc, 5)?;
    let _ = queue.push(one);
    let _ = queue.push(two);
    let mut items = queue.try_iter();
    let first = items.next();
    drop(items);
    Ok((first, queue.pop().ok()))
}

/// The first step of a pop on one slot, which is the exchange of the word of an unlocked slot with an item.
pub fn first_step_of_a_pop() -> Next<()>
    ensures { result ≡ next.Step (local.Slot (slot.Popping 2)) touch.Nothing (op.Exchange word.Lock 2 1) }
{
    let local = queue_steps::steps::start(Kind::Single, Call::Pop);
    queue_steps::steps::next(Kind::Single, local, Answer::Start)
}

/// Takes the front of a queue that has an item.
pub fn take<A: Allocator>(queue: &mut Exclusive<u64, A>) -> u64
    requires { queue.old.queue.items ≢ [] }
    ensures { queue.old.queue ≡ record queue.new.queue { items = result ∷ queue.new.queue.items } }
{
    match queue.pop() {
        Ok(item) => item,
        Err(_) => unreachable!(),
    }
}

/// Moves the front of an open queue with a capacity to its end.
pub fn rotate<A: Allocator>(queue: &mut Exclusive<u64, A>)
    requires some { queue.old.queue.items ≢ [] }
    requires open { queue.old.queue.closed ≡ false }
    requires bounded { queue.old.queue.cap ≢ None }
    requires below { queue.old.queue.accepted < LIMIT }
    ensures { (x : ℕ) (xs : List ℕ) → queue.old.queue.items ≡ x ∷ xs → queue.new.queue.items ≡ xs ++ x ∷ [] }
{
    queue.show_sound();
    let front = take(queue);
    match queue.push(front) {
        Ok(()) => {}
        Err(_) => unreachable!(),
    }
}
