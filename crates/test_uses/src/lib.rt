//! Tests of the uses of shared queues and of the callers that the pages show, and of handles of a queue.
#![tactic(auto)]

#[cfg(test)]
mod asserts;
#[cfg(test)]
mod callers_run;
#[cfg(test)]
mod crews;
#[cfg(test)]
mod jobs;
#[cfg(test)]
mod opening;
#[cfg(test)]
mod queue_handles;
#[cfg(test)]
mod system;
#[cfg(test)]
mod tasks;
