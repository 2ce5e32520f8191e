//! One piece of work for each of many threads on a shared queue, each with a party of its own, in one call.
#![tactic(auto)]

pub mod crew;
pub mod limit;
mod on_queue;
pub mod refusal;
pub mod shift;

pub use limit::{Limit, NO_LIMIT};
pub use refusal::OnRefusal;
pub use shift::{Gathered, Roster, Shift, run_shift};
