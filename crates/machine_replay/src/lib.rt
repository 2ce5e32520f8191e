//! The machine: a queue whose parties take their atomic steps in any order that a list of events names.
#![tactic(auto)]

pub mod books;
mod chain_left;
pub mod laws;
mod left;
pub mod machine_run;
mod peaks;
mod run;
pub mod words;

pub use machine_memory::{blocks, same, shared_memory, types};
pub use machine_steps::machine;
pub use run::replay;
