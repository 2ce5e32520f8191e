//! The steps of the calls that look at a chain of blocks, and of a close.
ghost use Rattle.std.specs.Prelude.{◌≡◌, ◌≤◌};
ghost use Rattle.queue_steps.specs.Words.{IsWord, position_of};
ghost use Rattle.queue_steps.specs.ChainWords.{items_before};
ghost use Rattle.queue_steps.specs.ChainNext.{chain_next};

use crate::steps::chain::each::{items, load};
use crate::steps::{Answer, ChainLocal, Look, Next, Word};
use crate::words::{is_marked, position_of};

/// What follows the second read of a tail.
#[inline(always)]
pub fn after_count<B: Copy>(look: Look, tail: u64, head: u64, again: u64) -> Next<B>
    requires words { IsWord tail × IsWord head }
    requires ahead { again ≡ tail → items_before (position_of head) ≤ items_before (position_of tail) }
    ensures { result ≡ chain_next (ChainLocal.CountAgain look tail head) (Answer.Found again) }
{
    if again == tail {
        let len = items(position_of(tail)) - items(position_of(head));
        Next::Reply(look.reply(None, len as usize, is_marked(tail)), None)
    } else {
        load(ChainLocal::CountTail(look), Word::Tail)
    }
}
