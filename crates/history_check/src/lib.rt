//! Whether a recorded history of calls on a queue is legal.
#![tactic(auto)]

mod ahead;
mod calls;
mod closing;
mod cover;
mod crowd;
pub mod decide;
mod expected;
mod found_moves;
pub mod laws;
pub mod left_out;
mod level;
mod order_finder;
mod part;
mod patterns;
mod point;
mod queue;
pub mod recorded;
pub mod search;
mod settle;
mod show;
mod stage;
mod steps;
mod trail;
mod unended;
mod value_order;
mod values;
