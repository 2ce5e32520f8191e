//! A chain of blocks with one owner, as cells of the driver.

mod opening;
mod operations;
pub mod own_chain;
pub mod reading;
