//! The memory of unbounded queues: heap blocks of words and slots, linked to one another, that threads share under a
//! rule of the user's over plain data, or that one owner reads and writes as plain memory.
#![tactic(auto)]

pub mod block;
pub mod chain;
pub mod hub;
pub mod item;
pub mod null_testable;
mod operation;
pub mod seats;
pub mod sizes;
pub mod steps;
pub mod web;
mod word;
