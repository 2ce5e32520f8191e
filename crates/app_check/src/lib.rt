//! The checker of recorded histories: it reads its argument and a history, has it decided whether the history is legal, and prints the answer.
#![tactic(auto)]

pub mod answers;
pub mod asked;
pub mod command;
pub mod faults;
pub mod line_faults;
pub mod program;
pub mod reading;
pub mod replies;
