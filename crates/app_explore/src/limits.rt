//! How large a program may be.

/// The most parties of a program. A digit is the number of each.
pub const MOST_PARTIES: usize = 8;

/// The most calls of a party.
pub const MOST_CALLS: usize = 16;

/// The most calls that are made before the parties begin.
pub const MOST_CALLS_BEFORE: usize = 1_000;

/// The most states of a program.
pub const MOST_STATES: usize = 1_000_000;

const _: () = prove!(MOST_PARTIES == 8 && MOST_CALLS == 16 && MOST_CALLS_BEFORE == 1_000);

const _: () = prove!(MOST_STATES == 1_000_000);
