//! Tests of the ends of a channel in futures.
#![tactic(auto)]

#[cfg(test)]
mod asserts;
#[cfg(test)]
mod beside;
#[cfg(test)]
mod gone;
#[cfg(test)]
mod held;
#[cfg(test)]
mod host;
#[cfg(test)]
mod kit;
#[cfg(test)]
mod opening;
#[cfg(test)]
mod polling;
#[cfg(test)]
mod pools;
#[cfg(test)]
mod sinks;
#[cfg(test)]
mod stories;
#[cfg(test)]
mod tasks;
