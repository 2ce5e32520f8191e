//! A chain of raw blocks that parties share: the rule of the web, and each step of a call on it.
#![tactic(auto)]

mod ending;
pub mod ends;
mod parties;
mod quitting;
pub mod rule;
pub mod source;
mod touching;
pub mod web;
