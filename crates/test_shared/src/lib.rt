//! Tests of queues that parties share: stories of one thread, threads, calls that are held between their steps, and calls that never wait.
#![tactic(auto)]

#[cfg(test)]
mod asserts;
#[cfg(test)]
mod calls;
#[cfg(test)]
mod crew;
#[cfg(test)]
mod gates;
#[cfg(test)]
mod items;
#[cfg(test)]
mod opening;
#[cfg(test)]
mod shared;
#[cfg(test)]
mod stories;
