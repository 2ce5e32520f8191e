//! How a position and a mark stand in a word: a tail is marked once the queue is closed, and the head of a chain if its block is known not to be the last.
ghost use Rattle.std.specs.Prelude.{◌≡◌};
ghost use Rattle.queue_steps.specs.Words.{position_of, is_shut};

use crate::steps::TAIL_STEP;

/// The position of a word.
#[inline(always)]
pub fn position_of(word: u64) -> u64
    ensures { result ≡ position_of word }
{
    word / TAIL_STEP
}

/// Whether a word is marked, by what it has beside its position.
#[inline(always)]
pub fn is_marked(word: u64) -> bool
    ensures { result ≡ is_shut word }
{
    word % TAIL_STEP != 0
}
