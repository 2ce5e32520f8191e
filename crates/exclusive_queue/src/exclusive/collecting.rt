//! A queue of what an iterator gives.
ghost use Rattle.std.specs.Prelude.{◌≡◌, length};
ghost use Rattle.exclusive_queue.specs.Collecting.{queued};

use crate::exclusive::Exclusive;
use std::alloc::{AllocError, Allocator};

impl<T: Drop, A: Allocator> FromIterator<T> for Exclusive<T, A> {
    type Alloc = A;

    ghost from_iter_gives = { λ items queue. queue.queue ≡ queued items };

    /// An open queue without a capacity, with these items.
    ///
    /// # Errors
    ///
    /// Where there is no memory for them, or there are more than `LIMIT`.
    fn from_iter<U: IntoIterator<Item = T>>(alloc: A, iter: U) -> Result<Self, AllocError> {
        let mut queue = Exclusive::unbounded(alloc);
        for item in iter {
            if queue.push(item).is_err() {
                return Err(AllocError);
            }
        }
        Ok(queue)
    }
}
