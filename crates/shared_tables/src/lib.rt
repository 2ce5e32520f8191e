//! Queues that parties share whose words and slots lie in one table, at which each party has a seat; and their kinds: one slot, and a ring.
#![tactic(auto)]

mod clauses;
mod quitting;
pub mod ring;
mod seats;
pub mod slot;
pub mod table;
mod touching;
