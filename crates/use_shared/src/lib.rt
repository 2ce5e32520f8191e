//! Uses of the shared queue: jobs that parties take, and tasks that workers step.
#![tactic(auto)]

pub mod tasks;
pub mod work;
