//! Tests on one thread: queues with one owner, the machine's runs of queues, raw blocks, and the uses that have one owner.
#![tactic(auto)]

#[cfg(test)]
mod asserts;
#[cfg(test)]
mod blocks;
#[cfg(test)]
mod machine;
#[cfg(test)]
mod owner;
#[cfg(test)]
mod uses;
