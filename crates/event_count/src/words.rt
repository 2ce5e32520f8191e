//! The two words, and each step on them.
ghost use Rattle.std.specs.Prelude.{◌≡◌};
ghost use Rattle.event_count.specs.declared.wakes.steps.Step.TheVariants as step;
ghost use Rattle.event_count.specs.Cursors.{IsOnWords};

#[cfg(test)]
mod tests;

use crate::deadline::Deadline;
use crate::wakes::{Step, Whom, Word};
use crossbeam_utils::CachePadded;
use std::sync::Wait;
use std::sync::atomic::AtomicU64;
use std::sync::atomic::Ordering::SeqCst;

/// The two words, each on a line of its own.
#[derive(Drop)]
pub(crate) struct Words {
    events: CachePadded<AtomicU64>,
    sleepers: CachePadded<AtomicU64>,
}

/// A step that is done, and what it found in its word. The words alone make one.
pub(crate) struct Done {
    step: Step,
    found: u64,
}

impl Done {
    #[inline(always)]
    pub(crate) fn found(self) -> u64
        ensures { result ≡ self.found }
    {
        let Done { step: _, found } = self;
        found
    }
}

impl Words {
    pub(crate) fn new() -> Words {
        Words {
            events: CachePadded::new(AtomicU64::new(0)),
            sleepers: CachePadded::new(AtomicU64::new(0)),
        }
    }

    #[inline(always)]
    fn word(&self, word: Word) -> &AtomicU64 {
        match word {
            Word::Events => &self.events,
            Word::Sleepers => &self.sleepers,
        }
    }

    /// Does a step.
    #[inline(always)]
    pub(crate) fn operate(&self, step: Step) -> Done
        requires { IsOnWords step }
        ensures { result.step ≡ step }
    {
        let found = match step {
            Step::Load(word) => self.word(word).load(SeqCst),
            Step::Add(word) => self.word(word).fetch_add(1, SeqCst),
            Step::Take(sleepers) => {
                let less = sleepers.saturating_sub(1);
                let (Ok(found) | Err(found)) = self
                    .sleepers
                    .compare_exchange(sleepers, less, SeqCst, SeqCst);
                found
            }
            Step::Clear => self.sleepers.swap(0, SeqCst),
            Step::Wake(whom) => {
                match whom {
                    Whom::One => self.events.wake_one(),
                    Whom::All => self.events.wake_all(),
                }
                0
            }
            Step::Rest | Step::Park(_) => unreachable!(),
        };
        Done { step, found }
    }

    /// Sleeps if the low half of `EVENTS` is this, until the deadline at most.
    pub(crate) fn park<R: Wait, D: Deadline>(&self, rt: &R, events: u32, until: &D) -> Done
        ensures { result.step ≡ step.Park events }
    {
        match until.left() {
            Some(left) => self.events.park_timeout(rt, events, left),
            None => self.events.park(rt, events),
        }
        Done {
            step: Step::Park(events),
            found: 0,
        }
    }
}
