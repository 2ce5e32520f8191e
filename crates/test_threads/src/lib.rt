//! Tests of what threads use that knows no queue: eventcounts, lists of wakers, and webs of raw blocks.
#![tactic(auto)]

#[cfg(test)]
mod asserts;
#[cfg(test)]
mod blocks;
#[cfg(test)]
mod host;
#[cfg(test)]
mod sleep;
