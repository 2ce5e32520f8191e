//! What the program reads and prints: the grammar of its arguments and of its input, and the texts of replies and faults.
#![tactic(auto)]

pub mod actions;
pub mod args;
pub mod calls;
pub mod effects;
pub mod faults;
pub mod items;
pub mod lines;
pub mod load;
pub mod numbers;
pub mod replies;
pub mod streams;
pub mod words;
