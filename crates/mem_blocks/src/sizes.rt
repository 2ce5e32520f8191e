// How long the rows of a block and of an end are.
use queue_steps::sizes::BLOCK_SLOTS;

/// How many slots a block has, and how many words.
pub const SLOTS: usize = BLOCK_SLOTS as usize;

/// How many words an end of a hub has. With the link before them it takes 128 bytes.
pub const END_WORDS: usize = 15;
