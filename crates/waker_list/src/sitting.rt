//! Where a party is, and a notify that is owed.
ghost use Rattle.std.specs.Prelude.{◌≡◌, false, true, IsTrue};
ghost use Rattle.event_count.specs.declared.wakes.seats.Seat.TheVariants.{Away, Given, Telling};
ghost use Rattle.event_count.specs.declared.wakes.seats.ListStep.TheVariants.{Load};
ghost use Rattle.event_count.specs.Sleep.Lists.{is_on};
ghost use Rattle.event_count.specs.Sleep.Seats.{step_of, entered_of, looked_of, left_of, next_of};
ghost use Rattle.waker_list.specs.Places.{is_away, came_off_of};

use crate::listed::Loaded;
use crate::state::{Ended, Joined, Taken};
use event_count::wakes::{ListStep, Seat};
use futures::spin::GaveUp;
use std::marker::PhantomData;

/// A notify of one that is owed. It has no bytes, and is neither copied nor dropped: only a notify that begins ends it.
pub(crate) struct OwedOne<C> {
    condition: PhantomData<C>,
}

/// A notify of all that is owed. It has no bytes, and is neither copied nor dropped: only a notify that begins ends it.
pub(crate) struct OwedAll<C> {
    condition: PhantomData<C>,
}

/// The seat of a party. It is neither copied nor dropped, and only what is done moves it on. So whoever has one does what it owes, to the end.
pub(crate) struct Sitting<C> {
    seat: Seat,
    condition: PhantomData<C>,
}

impl<C> Sitting<C> {
    #[inline(always)]
    fn at(seat: Seat) -> Sitting<C>
        ensures { result.seat ≡ seat }
    {
        Sitting {
            seat,
            condition: PhantomData,
        }
    }

    #[inline(always)]
    fn seat(self) -> Seat
        ensures { result ≡ self.seat }
    {
        let Sitting { seat, condition: _ } = self;
        seat
    }

    /// That of a future which is not on the list.
    #[inline(always)]
    pub(crate) fn away() -> Sitting<C>
        ensures { result.seat ≡ Away }
    {
        Sitting::at(Seat::Away)
    }

    /// What a notify does next.
    #[inline(always)]
    pub(crate) fn step(&self) -> ListStep
        ensures { result ≡ step_of self.now.seat }
    {
        self.seat.step()
    }

    /// A notify goes on after it has loaded the word.
    #[inline(always)]
    pub(crate) fn loaded(self, loaded: Loaded) -> Sitting<C>
        requires { step_of self.seat ≡ Load }
        ensures { result.seat ≡ next_of self.seat loaded.nobody }
    {
        Sitting::at(self.seat().next(loaded.nobody()))
    }

    /// A notify goes on after futures were taken off the list.
    pub(crate) fn taken(self, taken: Taken) -> Sitting<C>
        requires { taken.step ≡ step_of self.seat }
        ensures { result.seat ≡ next_of self.seat taken.nobody }
    {
        Sitting::at(self.seat().next(taken.nobody()))
    }

    /// The future has entered the list.
    #[inline(always)]
    pub(crate) fn entered(self, _: &Joined) -> Sitting<C>
        ensures { result.seat ≡ entered_of self.seat }
    {
        Sitting::at(self.seat().entered())
    }

    /// The future has looked, and has found what it waits for or not.
    #[inline(always)]
    pub(crate) fn looked(self, found: bool, condition: C) -> Sitting<C>
    where
        C: Drop,
        ensures { result.seat ≡ looked_of self.seat found }
    {
        let _ = condition;
        Sitting::at(self.seat().looked(found))
    }

    /// The entry of the future has ended.
    #[inline(always)]
    pub(crate) fn came_off(self, ended: Ended) -> Sitting<C>
        requires { is_on self.seat ≡ true }
        ensures { result.seat ≡ came_off_of self.seat ended.taken_off }
    {
        if ended.taken_off() {
            Sitting::at(self.seat().taken_off())
        } else {
            Sitting::at(self.seat().left())
        }
    }

    /// The future, which is not on the list, waits no more.
    #[inline(always)]
    pub(crate) fn left(self) -> Sitting<C>
        requires { is_on self.seat ≡ false }
        ensures { result.seat ≡ left_of self.seat }
    {
        Sitting::at(self.seat().left())
    }

    /// The lock could not be taken at 2^64 tries. Nothing more is done.
    #[cold]
    pub(crate) fn give_up(self, _: &GaveUp) -> Sitting<C>
        ensures { result.seat ≡ Away }
    {
        let _ = self.seat();
        Sitting::away()
    }

    #[inline(always)]
    pub(crate) fn is_away(&self) -> bool
        ensures { result ≡ is_away self.now.seat }
    {
        matches!(self.seat, Seat::Away)
    }

    #[inline(always)]
    pub(crate) fn end(self)
        requires { IsTrue (is_away self.seat) }
    {
        let Sitting {
            seat: _,
            condition: _,
        } = self;
    }
}

impl<C> OwedOne<C> {
    /// The condition was made true for one that waits.
    #[inline(always)]
    pub(crate) fn new(condition: C) -> OwedOne<C>
    where
        C: Drop,
    {
        let _ = condition;
        OwedOne {
            condition: PhantomData,
        }
    }

    /// The notify begins.
    #[inline(always)]
    pub(crate) fn begin(self) -> Sitting<C>
        ensures { result.seat ≡ Given }
    {
        let OwedOne { condition: _ } = self;
        Sitting::at(Seat::Given)
    }
}

impl<C> OwedAll<C> {
    /// The condition was made true for all that wait.
    #[inline(always)]
    pub(crate) fn new(condition: C) -> OwedAll<C>
    where
        C: Drop,
    {
        let _ = condition;
        OwedAll {
            condition: PhantomData,
        }
    }

    /// The notify begins.
    #[inline(always)]
    pub(crate) fn begin(self) -> Sitting<C>
        ensures { result.seat ≡ Telling }
    {
        let OwedAll { condition: _ } = self;
        Sitting::at(Seat::Telling)
    }
}
