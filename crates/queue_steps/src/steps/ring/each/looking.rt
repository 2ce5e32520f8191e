//! The steps of the calls that look at a ring, and of a close.
ghost use Rattle.std.specs.Prelude.{◌≡◌, ◌≤◌};
ghost use Rattle.queue_steps.specs.RingNext.{count_found};
ghost use Rattle.queue_steps.specs.Words.{position_of};

use crate::steps::ring::each::load;
use crate::steps::{Look, Next, RingLocal, Word};
use crate::words::{is_marked, position_of};

/// What follows the second read of a tail.
#[inline]
pub fn after_count<B: Copy>(cap: u64, look: Look, tail: u64, head: u64, again: u64) -> Next<B>
    requires { again ≡ tail → head ≤ position_of tail }
    ensures { result ≡ count_found cap look tail head again }
{
    if again == tail {
        let len = (position_of(tail) - head) as usize;
        Next::Reply(look.reply(Some(cap as usize), len, is_marked(tail)), None)
    } else {
        load(RingLocal::CountTail(look), Word::Tail)
    }
}
