//! The abstract queue, its errors and the steps of its calls.
#![tactic(auto)]

pub mod errors;
pub mod fill_reply;
pub mod laws;
pub mod model;
pub mod sizes;
pub mod steps;
pub mod words;
