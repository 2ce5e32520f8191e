//! Laws of queues, which hold of every interleaving. `specs/` has what they say, `proofs/` the laws, in a folder each: what those of several kinds share (`Common`); of a slot, of a ring
//! and of a chain, where a call is and what each of its steps does to the queue that these words stand for (`Slot`, `Ring`, `Chain`); what every history keeps (`History`); and that a
//! displacement is one moment (`Moment`).
#![tactic(auto)]

pub mod histories;
pub mod moments;
