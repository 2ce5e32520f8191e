//! Callers that are proved from the public contracts alone; `CALLING.md` of each library shows one.
#![tactic(auto)]

pub mod channel;
pub mod ends;
pub mod handle;
pub mod moments;
pub mod owner;
pub mod parties;
pub mod phantoms;
pub mod tries;
pub mod turns;
