//! What the program does with threads: counts what they push and pop through a queue, or lets two of them hand an item to each other.
#![tactic(auto)]

pub mod channel;
pub mod counts;
pub mod crew;
pub mod ends;
pub mod handshake;
pub mod limit;
pub mod sharing;
pub mod threads;
pub mod verdict;
