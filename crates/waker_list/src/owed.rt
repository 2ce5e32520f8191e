//! What is owed to futures that wait: a notify of a list that it names. It cannot be dropped, and only the notify ends it.
ghost use Rattle.std.specs.Prelude.{◌≡◌};

use crate::WakerList;
use crate::sitting::{OwedAll, OwedOne};

/// The condition was made true for one that waits on a list, and nobody was notified yet.
pub struct OwesOne<'a, C> {
    list: &'a WakerList<C>,
    owed: OwedOne<C>,
}

/// The condition was made true for all that wait on a list, and nobody was notified yet.
pub struct OwesAll<'a, C> {
    list: &'a WakerList<C>,
    owed: OwedAll<C>,
}

impl<'a, C> OwesOne<'a, C> {
    /// A notify of one of those on this list.
    #[inline(always)]
    pub(crate) fn at(list: &'a WakerList<C>, condition: C) -> OwesOne<'a, C>
    where
        C: Drop,
        ensures { result.list.now ≡ list.now }
    {
        OwesOne {
            list,
            owed: OwedOne::new(condition),
        }
    }

    /// Wakes the future that has waited longest, where there is one.
    #[inline(always)]
    pub fn notify(self) {
        let OwesOne { list, owed } = self;
        list.notify(owed.begin());
    }
}

impl<'a, C> OwesAll<'a, C> {
    /// A notify of all that are on this list.
    #[inline(always)]
    pub(crate) fn at(list: &'a WakerList<C>, condition: C) -> OwesAll<'a, C>
    where
        C: Drop,
        ensures { result.list.now ≡ list.now }
    {
        OwesAll {
            list,
            owed: OwedAll::new(condition),
        }
    }

    /// Wakes all futures that wait.
    #[inline]
    pub fn notify(self) {
        let OwesAll { list, owed } = self;
        list.notify(owed.begin());
    }
}
