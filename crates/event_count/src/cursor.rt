//! Where a call is, and a notify that is owed.
ghost use Rattle.std.specs.Prelude.{◌≡◌, IsTrue};
ghost use Rattle.event_count.specs.declared.wakes.steps.Phase.TheVariants.{Given, Clearing};
ghost use Rattle.event_count.specs.Sleep.Steps.{step_of, after_of, looked_of};
ghost use Rattle.event_count.specs.Cursors.{Begins, is_over};

use crate::wakes::{Phase, Step};
use crate::words::Done;
use std::marker::PhantomData;

/// A notify of one that is owed. It has no bytes, and is neither copied nor dropped: only a notify that begins ends it.
pub(crate) struct OwedOne<C> {
    condition: PhantomData<C>,
}

/// A notify of all that is owed. It has no bytes, and is neither copied nor dropped: only a notify that begins ends it.
pub(crate) struct OwedAll<C> {
    condition: PhantomData<C>,
}

/// A call on its way. It is neither copied nor dropped, and only a step that is done moves it on. So whoever has one has its steps done, in their order, to the end.
pub(crate) struct Cursor {
    phase: Phase,
}

impl Cursor {
    #[inline(always)]
    pub(crate) fn begin(phase: Phase) -> Cursor
        requires { Begins phase }
        ensures { result.phase ≡ phase }
    {
        Cursor { phase }
    }

    /// What the call does next.
    #[inline(always)]
    pub(crate) fn step(&self) -> Step
        ensures { result ≡ step_of self.now.phase }
    {
        self.phase.step()
    }

    /// Goes on after its next step.
    #[inline(always)]
    pub(crate) fn after(self, done: Done) -> Cursor
        requires { done.step ≡ step_of self.phase }
        ensures { result.phase ≡ after_of self.phase done.found }
    {
        let Cursor { phase } = self;
        Cursor {
            phase: phase.after(done.found()),
        }
    }

    /// The caller has looked at what it waits for, and found it or not.
    #[inline(always)]
    pub(crate) fn look(self, found: bool) -> Cursor
        ensures { result.phase ≡ looked_of self.phase found }
    {
        let Cursor { phase } = self;
        Cursor {
            phase: phase.looked(found),
        }
    }

    #[inline(always)]
    pub(crate) fn is_over(&self) -> bool
        ensures { result ≡ is_over self.now.phase }
    {
        matches!(self.phase, Phase::Idle | Phase::Returned)
    }

    #[inline(always)]
    pub(crate) fn end(self)
        requires { IsTrue (is_over self.phase) }
    {
        let Cursor { phase: _ } = self;
    }
}

impl<C> OwedOne<C> {
    /// The condition was made true for one that waits.
    #[inline(always)]
    pub(crate) fn new(condition: C) -> OwedOne<C>
    where
        C: Drop,
    {
        let _ = condition;
        OwedOne {
            condition: PhantomData,
        }
    }

    /// The notify begins.
    #[inline(always)]
    pub(crate) fn begin(self) -> Cursor
        ensures { result.phase ≡ Given }
    {
        let OwedOne { condition: _ } = self;
        Cursor::begin(Phase::Given)
    }
}

impl<C> OwedAll<C> {
    /// The condition was made true for all that wait.
    #[inline(always)]
    pub(crate) fn new(condition: C) -> OwedAll<C>
    where
        C: Drop,
    {
        let _ = condition;
        OwedAll {
            condition: PhantomData,
        }
    }

    /// The notify begins.
    #[inline(always)]
    pub(crate) fn begin(self) -> Cursor
        ensures { result.phase ≡ Clearing }
    {
        let OwedAll { condition: _ } = self;
        Cursor::begin(Phase::Clearing)
    }
}
