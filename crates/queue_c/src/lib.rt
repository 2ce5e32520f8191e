//! A shared queue of words for C and for Rust. C keeps a party as a handle, which also has a share in keeping the queue.
#![tactic(auto)]

mod answers;
mod end;
mod exports;
mod handle;
mod loose;
#[cfg(test)]
mod tests;
