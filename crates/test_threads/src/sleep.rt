//! Threads that sleep on an eventcount, and futures that wait on a list of wakers.
pub mod asleep;
pub mod deadlines;
pub mod tickets;
pub mod wakers;
