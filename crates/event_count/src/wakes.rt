//! The steps of an eventcount and of a list of wakers, and their laws: nobody sleeps through what it waits for.
//!
//! A party that waits loads `EVENTS`, adds one to `SLEEPERS`, looks at what it waits for, and sleeps while `EVENTS` is as it was. A party that has given an item loads `SLEEPERS`: where
//! that is 0 others have gone to wake each sleeper, and nothing is left to do. Else it takes one off, if nobody changed the word in between, adds one to `EVENTS`, and wakes one.
//!
//! Who wakes all takes all off `SLEEPERS`, adds one to `EVENTS`, and wakes. So no later notify of one goes to wake for those. A party that is counted between the first two of these steps
//! does not sleep, and its count is left: a later notify of one goes once to wake nobody.
//!
//! At a list of wakers a future that has looked in vain enters the list, looks once more, and is asleep. A notify takes it off. One that was taken off, and ends before it looks again, or
//! that had found its item before, hands that wake on. A future learns at its next lock that it was taken off.

ghost use Rattle.event_count.specs.Sleep.Laws.{NobodySleepsThrough, NoItemIsLeft};
ghost use Rattle.event_count.specs.Sleep.Examples.{Examples};
ghost use Rattle.event_count.specs.Sleep.ListLaws.{NoItemIsLeftOnLists, NobodySleepsThroughOnLists};
ghost use Rattle.event_count.specs.Sleep.Views.{ViewsAgree};

mod seats;
mod steps;

pub use seats::{ListStep, Seat};
pub use steps::{Phase, Step, Whom, Word};

/// In every run, of any number of parties, a sleeper has missed nothing: what all wait for has not come since the sleeper looked, or each party that has made it come since has not ended
/// its notify of all.
///
/// Of a sleeper with a ticket from which `EVENTS` went on by 2^32 or more before it parked, nothing is said.
pub fn nobody_sleeps_through()
    ensures { NobodySleepsThrough }
{}

/// In every run, while a party sleeps, no item is left to nobody: there are at most as many items as parties that were woken and have not looked again, and parties that gave an item
/// and have not ended their notify of one; or there are at most as many sleepers as such notifies; or a notify of all has taken all off `SLEEPERS` and has not ended. So once each notify
/// has ended, somebody was woken for each item.
///
/// Of a run in which a party slept on a ticket from which `EVENTS` had gone on, by 2^32 or more, nothing is said.
pub fn no_item_is_left()
    ensures { NoItemIsLeft }
{}

/// Short runs: a party sleeps, and each kind of notify wakes it.
pub fn examples()
    ensures { Examples }
{}

/// In every run of any number of parties at a list of wakers, a future that sleeps has missed nothing: what all wait for has not come since it looked, or a notify of all has not ended.
pub fn nobody_sleeps_through_on_lists()
    ensures { NobodySleepsThroughOnLists }
{}

/// In every run of any number of parties at a list of wakers, while a future sleeps, no item is left to nobody: there are at most as many items as futures that were woken and have not
/// looked again, and notifies of one that have not ended. A future that is dropped after it was woken hands its wake on, as does one that was taken off the list when it had found an item.
pub fn no_item_is_left_on_lists()
    ensures { NoItemIsLeftOnLists }
{}

/// What a future does before it learns that a notify has taken it off the list is what it does where it is: each step by its view is the same step there, or none. Where it hands on a wake
/// that it had used, it is a party that is away, and notifies one.
pub fn views_agree()
    ensures { ViewsAgree }
{}
