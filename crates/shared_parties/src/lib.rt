//! What the parties of a shared queue know, and where their calls stand, whatever the queue is made of.
#![tactic(auto)]

pub mod call_tag;
pub mod count;
pub mod known;
pub mod parting;
