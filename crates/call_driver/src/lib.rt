//! The driver of calls: what a site owes where steps are done, and who takes the steps of a call there, of one owner or of a party.
#![tactic(auto)]

pub mod cells;
pub mod driver;
pub mod fast;
pub mod gate;
pub mod own;
pub mod progress;
pub mod retry;
pub mod site;
mod steps;
