//! Every run of the machine, recorded as a history of calls, is legal; and what is legal by the rules of one step, and of two.
#![tactic(auto)]

ghost use Rattle.law_recorded.specs.OneStep.{OneStepIsTwo, TwoStepsAreOne};
ghost use Rattle.law_recorded.specs.Recorded.{RunsAreLegal, ReplaysAreLegal};

pub mod record;

use std::alloc::Allocator;

/// The beginnings and replies of each run of the machine, in the order of time, are a legal history.
pub fn runs_are_legal()
    ensures { RunsAreLegal }
{}

/// And so are those of each replay that conforms to its events, as its lists show them.
pub fn replays_are_legal<A: Allocator>()
    ensures { ReplaysAreLegal A }
{}

/// A history that is legal where a displacement is one step is legal where it takes two.
pub fn one_step_is_two()
    ensures { OneStepIsTwo }
{}

/// Without `len`, `is_empty` and `is_full`, a history that is legal where a displacement takes two steps is legal where it is one.
pub fn two_steps_are_one()
    ensures { TwoStepsAreOne }
{}
