//! Tests of `queue_explore`, where no stored case shows it: limits, programs that no text has room for, and what is found wrong.
#![tactic(auto)]

#[cfg(test)]
mod asserts;
#[cfg(test)]
mod limits;
#[cfg(test)]
mod not_shown;
#[cfg(test)]
mod program;
#[cfg(test)]
mod sizes;
