//! The program `queue_run` as a function of its arguments, its input and its outputs.
#![tactic(auto)]

pub mod command;
pub mod program;
mod replay;
mod script;
mod turns;
