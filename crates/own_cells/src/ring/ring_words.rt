//! Where the words of a ring lie in its table. Word 0 is the count of parties; the tail, the head and the stamps follow.
//!
//! Pushers write the tail and poppers write the head, so that a write to either takes from nobody the other, the count or a stamp. Each stamp has a cache line of its own: who writes it takes at most one other stamp from a processor. The words between hold 0, and no step touches them.
ghost use Rattle.std.specs.Prelude.{◌≡◌, ◌<◌, ◌≤◌, ◌^◌, IfOk};
ghost use Rattle.queue_steps.specs.declared.sizes.TheConstants.{MAX_CAPACITY};
ghost use Rattle.own_cells.specs.OneRing.RingWords.{bare_words, stamp_word, words_of};

use std::alloc::{AllocError, Allocator};

/// The word of the tail. The count, the tail, the head and the first stamp lie 128 bytes from each other, since a processor fetches cache lines, of 64 bytes, in pairs.
pub const TAIL: usize = 16;

/// The word of the head.
pub const HEAD: usize = 32;

/// The word of the first stamp.
pub const STAMPS: usize = 48;

/// The words from a stamp to the next one: a cache line, 64 bytes, so that two stamps share none.
pub const STAMP_WORDS: usize = 8;

/// The word of the stamp of this slot.
#[inline(always)]
pub fn stamp_word(slot: usize) -> usize
    requires { words_of slot < 2 ^ 64 }
    ensures { result ≡ stamp_word slot }
{
    STAMPS + slot * STAMP_WORDS
}

/// The words of a ring with one party whose stamps are not written yet: they hold 0.
///
/// # Errors
///
/// Where there is no memory.
pub fn bare_words<A: Allocator>(
    alloc: A,
    capacity: usize,
    tail: u64,
    head: u64,
) -> Result<Vec<u64, A>, AllocError>
    requires { capacity ≤ MAX_CAPACITY }
    ensures { IfOk result (λ words. words.items ≡ bare_words capacity tail head) }
{
    let mut words = vec![in alloc; 0; capacity * STAMP_WORDS + STAMPS]?;
    words[0] = 1;
    words[TAIL] = tail;
    words[HEAD] = head;
    Ok(words)
}
