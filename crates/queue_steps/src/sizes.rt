//! Sizes and limits that all queues share.

/// How many items a queue of more than one slot ever accepts. Having accepted so many it closes itself at the next push.
pub const LIMIT: u64 = 1 << 62;

/// The longest capacity that a queue may have, in items.
pub const MAX_CAPACITY: usize = 1 << 59;

/// How many items a block of an unbounded queue holds.
pub const BLOCK_SLOTS: u64 = 63;

/// How many positions a block takes up: one for each slot, and one that holds nothing.
pub const BLOCK_POSITIONS: u64 = BLOCK_SLOTS + 1;

/// How many steps of its own a call takes at most from where it is alone: two for each position of a block, of which a pop may walk over a whole one.
pub const STEPS_ALONE: u64 = 2 * BLOCK_POSITIONS;

/// How many parties may share a queue.
pub const MAX_PARTIES: u64 = 1 << 31;

/// How many steps of its own a `close`, `is_closed`, `is_empty` or `is_full` takes at most, whatever other parties do.
pub const WAIT_FREE_STEPS: u64 = 2;

// The sizes as they are promised, so that none changes unseen.
const _: () = prove!(LIMIT == 4611686018427387904);

const _: () = prove!(MAX_CAPACITY == 576460752303423488);

const _: () = prove!(BLOCK_SLOTS == 63);

const _: () = prove!(STEPS_ALONE == 128);

const _: () = prove!(MAX_PARTIES == 2147483648);

const _: () = prove!(WAIT_FREE_STEPS == 2);
