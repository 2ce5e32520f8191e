//! What one event makes of the machine: what all share, and the call that each party is in.
#![tactic(auto)]

pub mod machine;
