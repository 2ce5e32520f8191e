//! Tests of the ends of a channel: by hand, many of them, and much room, ends that become one, what is left, and memory that is refused.
#![tactic(auto)]

#[cfg(test)]
mod asserts;
#[cfg(test)]
mod ended;
#[cfg(test)]
mod host;
#[cfg(test)]
mod limits;
#[cfg(test)]
mod many_ends;
#[cfg(test)]
mod memory;
#[cfg(test)]
mod opening;
#[cfg(test)]
mod queues;
#[cfg(test)]
mod threads;
