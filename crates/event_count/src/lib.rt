//! An eventcount: who waits for a condition sleeps, and who makes it true wakes it. It knows nothing of the condition.
//!
//! The order of a wait, and of a notify, is in the types. Who waits takes a [`Ticket`], looks at the condition with it in hand, and is given a [`Missed`] if it looked in vain: nothing else
//! is waited on. Who makes the condition true is given an [`OwesOne`] or an [`OwesAll`] of the eventcount: a notify that is owed. It cannot be dropped, and only the steps of that notify end it.
//!
//! `C` is the condition, a type of which only the code that looks at the condition, or makes it true, can make a value. That code hands one in for each ticket that it looked with in
//! vain, and for each notify that it owes.
//!
//! A notify of one is one load where no wait has begun, or a notify has gone to wake for each that has, also for those that were given up.
#![tactic(auto)]

ghost use Rattle.std.specs.Prelude.{◌≡◌, ℕ, IsTrue};
ghost use Rattle.event_count.specs.Sleep.Steps.{step_of, after_of};
ghost use Rattle.event_count.specs.Cursors.{IsOnWords, IsPark, is_prepared, is_missed};

mod cursor;
mod deadline;
mod owed;
mod patience;
pub mod wakes;
mod words;

use crate::cursor::Cursor;
use crate::wakes::{Phase, Step};
use crate::words::Words;
pub use deadline::{Deadline, Never, Until};
pub use owed::{OwesAll, OwesOne};
pub use patience::{Look, Patience, Vain};
use std::marker::PhantomData;
use std::sync::Wait;

/// Two words that threads share: how often somebody went to wake, and how many may sleep that nobody has gone to wake.
#[derive(Drop)]
pub struct EventCount<C> {
    words: Words,
    condition: PhantomData<C>,
}

/// A wait that has begun. Its holder looks at the condition, and says what it found.
pub struct Ticket<'a, C> {
    words: &'a Words,
    cursor: Cursor,
    condition: PhantomData<C>,
    ghost prepared: { IsTrue (is_prepared cursor.phase) },
}

/// A look in vain that was made with a ticket in hand. Its holder waits on it.
pub struct Missed<'a, C> {
    words: &'a Words,
    cursor: Cursor,
    condition: PhantomData<C>,
    ghost missed: { IsTrue (is_missed cursor.phase) },
}

/// Takes the next step of a call, which does not sleep.
#[inline(always)]
fn take_step(words: &Words, cursor: Cursor) -> Cursor
    requires { IsOnWords (step_of cursor.phase) }
    ensures { (found : ℕ) × (result.phase ≡ after_of cursor.phase found) }
{
    let done = words.operate(cursor.step());
    cursor.after(done)
}

/// Takes the next step of a call, which sleeps until the deadline at most.
fn park<R: Wait, D: Deadline>(rt: &R, words: &Words, cursor: Cursor, until: &D) -> Cursor
    requires { IsPark (step_of cursor.phase) }
    ensures { (found : ℕ) × (result.phase ≡ after_of cursor.phase found) }
{
    let Step::Park(events) = cursor.step() else {
        unreachable!()
    };
    let done = words.park(rt, events, until);
    cursor.after(done)
}

impl<C> EventCount<C> {
    pub fn new() -> EventCount<C> {
        EventCount {
            words: Words::new(),
            condition: PhantomData,
        }
    }

    /// Begins to wait.
    pub fn prepare(&self) -> Ticket<'_, C> {
        let words = &self.words;
        let loaded = take_step(words, Cursor::begin(Phase::Starting));
        let cursor = take_step(words, loaded);
        Ticket {
            words,
            cursor,
            condition: PhantomData,
        }
    }

    /// The condition was made true for one that waits, as its own code says.
    #[inline(always)]
    pub fn owe_one(&self, condition: C) -> OwesOne<'_, C>
    where
        C: Drop,
    {
        OwesOne::at(&self.words, condition)
    }

    /// The condition was made true for all that wait, as its own code says.
    #[inline(always)]
    pub fn owe_all(&self, condition: C) -> OwesAll<'_, C>
    where
        C: Drop,
    {
        OwesAll::at(&self.words, condition)
    }
}

impl<'a, C> Ticket<'a, C> {
    /// The condition is true, or its holder does not wait for it any more.
    #[inline(always)]
    pub fn found(self) {
        let Ticket {
            words: _,
            cursor,
            condition: _,
        } = self;
        cursor.look(true).end();
    }

    /// The condition was looked at with this ticket in hand, and is not true, as its own code says.
    #[inline(always)]
    pub fn missed(self, condition: C) -> Missed<'a, C>
    where
        C: Drop,
    {
        let _ = condition;
        let Ticket {
            words,
            cursor,
            condition: _,
        } = self;
        Missed {
            words,
            cursor: cursor.look(false),
            condition: PhantomData,
        }
    }
}

impl<C> Missed<'_, C> {
    /// Sleeps until a notify, if there was none since the ticket was taken. It may return for no reason, so the caller looks at the condition again.
    pub fn wait<R: Wait>(self, rt: &R) {
        self.wait_until(rt, &Never);
    }

    /// Waits so until the deadline at most. The caller looks at the condition again after that too, since a notify may have taken it for a sleeper.
    pub fn wait_until<R: Wait, D: Deadline>(self, rt: &R, until: &D) {
        let Missed {
            words,
            cursor,
            condition: _,
        } = self;
        park(rt, words, cursor, until).end();
    }
}
