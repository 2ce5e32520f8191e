//! The explorer of small programs: it reads its arguments and a program, has the program's outcomes found and shown to be all, and prints what is asked for.
#![tactic(auto)]

pub mod args;
mod calls;
pub mod command;
pub mod faults;
pub mod lanes;
pub mod limits;
pub mod listed;
pub mod listing;
pub mod outcomes;
pub mod program;
pub mod read_faults;
pub mod reading;
pub mod schedules;
mod tails;
pub mod usage;
pub mod wait_lines;
pub mod waits;
