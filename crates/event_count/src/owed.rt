//! What is owed to those that wait: a notify of an eventcount that it names. It cannot be dropped, and only the notify ends it.
ghost use Rattle.event_count.specs.Cursors.{IsTaking};

use crate::cursor::{Cursor, OwedAll, OwedOne};
use crate::take_step;
use crate::words::Words;

/// The condition was made true for one that waits at an eventcount, and nobody was notified yet.
pub struct OwesOne<'a, C> {
    words: &'a Words,
    owed: OwedOne<C>,
}

/// The condition was made true for all that wait at an eventcount, and nobody was notified yet.
pub struct OwesAll<'a, C> {
    words: &'a Words,
    owed: OwedAll<C>,
}

/// The steps of a notify of one that goes to wake.
#[cold]
#[inline(never)]
fn wake_one(words: &Words, cursor: Cursor)
    requires { IsTaking cursor.phase }
{
    let taken = take_step(words, cursor);
    let moved = take_step(words, taken);
    take_step(words, moved).end();
}

impl<'a, C> OwesOne<'a, C> {
    /// A notify of one of those that wait here.
    #[inline(always)]
    pub(crate) fn at(words: &'a Words, condition: C) -> OwesOne<'a, C>
    where
        C: Drop,
    {
        OwesOne {
            words,
            owed: OwedOne::new(condition),
        }
    }

    /// Wakes one of those that wait, where there are some.
    #[inline(always)]
    pub fn notify(self) {
        let OwesOne { words, owed } = self;
        let cursor = take_step(words, owed.begin());
        if cursor.is_over() {
            cursor.end();
        } else {
            wake_one(words, cursor);
        }
    }
}

impl<'a, C> OwesAll<'a, C> {
    /// A notify of all that wait here.
    #[inline(always)]
    pub(crate) fn at(words: &'a Words, condition: C) -> OwesAll<'a, C>
    where
        C: Drop,
    {
        OwesAll {
            words,
            owed: OwedAll::new(condition),
        }
    }

    /// Wakes all that wait.
    #[inline]
    pub fn notify(self) {
        let OwesAll { words, owed } = self;
        let cleared = take_step(words, owed.begin());
        let moved = take_step(words, cleared);
        take_step(words, moved).end();
    }
}
