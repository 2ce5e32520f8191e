//! Tests of channels whose ends are values of their own, told as stories, and of threads that sleep at them.
#![tactic(auto)]

#[cfg(test)]
mod asserts;
#[cfg(test)]
mod deeds;
#[cfg(test)]
mod dropped;
#[cfg(test)]
mod falling;
#[cfg(test)]
mod host;
#[cfg(test)]
mod idle;
#[cfg(test)]
mod leaving;
#[cfg(test)]
mod opening;
#[cfg(test)]
mod rows;
#[cfg(test)]
mod stories;
#[cfg(test)]
mod timed;
#[cfg(test)]
mod turns;
#[cfg(test)]
mod waking;
