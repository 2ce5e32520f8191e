//! What tests share: allocators that refuse and count, items that count their drops, signs that threads show each other, threads that are looked at; runs of a program and how they end, and streams that do as little as they may and fail at any of their calls; a queue of which only the closing is modelled, in blocks that are shared.
#![tactic(auto)]

pub mod allocators;
pub mod closing;
pub mod closing_rule;
pub mod items;
pub mod programs;
pub mod runs;
pub mod signs;
pub mod streams;
pub mod watched;
