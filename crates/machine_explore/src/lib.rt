//! Every outcome of a small program over one queue: what a program is, where its runs stand, and the check that a table of positions has them all; and who waits for whom in it.
#![tactic(auto)]

pub mod certify;
pub mod check;
pub mod check_waits;
pub mod explore;
pub mod laws;
pub mod outcome;
pub mod position;
pub mod problem;
pub mod program;
pub mod progress;
pub mod schedule;
pub mod search;
pub mod sequence;
pub mod shown;
pub mod trace;
pub mod waiting;
