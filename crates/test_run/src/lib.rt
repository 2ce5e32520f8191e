//! Tests of `queue_run`, where no stored case shows it: threads that cannot be started, crews, counts and arguments as no run has them.
#![tactic(auto)]

#[cfg(test)]
mod asserts;
#[cfg(test)]
mod counts;
#[cfg(test)]
mod crew;
#[cfg(test)]
mod ends;
#[cfg(test)]
mod program;
#[cfg(test)]
mod unstarted;
