//! Where a future is with a list, and its looks.
ghost use Rattle.std.specs.Prelude.{◌≡◌, ℕ, false, true, IsTrue, is_some};
ghost use Rattle.futures.specs.Task.{IsArmed, Hears, Keeps};
ghost use Rattle.event_count.specs.declared.wakes.seats.Seat.TheVariants.{Away, Asleep};
ghost use Rattle.event_count.specs.Sleep.Seats.{looked_of};
ghost use Rattle.waker_list.specs.Places.{MayLook, HasEntry, ComesOff, Rises, is_missed};

mod entering;

use crate::WakerList;
use crate::sitting::Sitting;
pub use entering::Entry;
use futures::spin::lock_or_give_up;
use futures::task::{Context, Poll, Source};
use futures::util::wait_list::Ticket;
use std::snapshot::Snapshot;

/// A future between two polls, at one list. It is not dropped: [`Place::leave`] ends it.
pub struct Place<'a, C> {
    list: &'a WakerList<C>,
    sitting: Sitting<C>,
    /// Its entry, until it sees that a notify has taken it off the list.
    ticket: Option<Ticket>,
    ghost fits: { MayLook sitting.seat ticket },
}

/// A look at the condition that is to be made. Its holder makes it, and says what it found.
pub struct Look<'a, C> {
    place: Place<'a, C>,
}

/// A look that was made in vain. Its holder enters the list.
pub struct Missed<'a, C> {
    place: Place<'a, C>,
    ghost missed: { IsTrue (is_missed place.sitting.seat) },
}

/// A future between two polls, apart from its list. It is not dropped: [`Place::at`] takes it.
pub struct Spot<C> {
    /// What contracts call its list.
    source: Snapshot<Source>,
    sitting: Sitting<C>,
    ticket: Option<Ticket>,
    ghost fits: { MayLook sitting.seat ticket },
}

/// Takes a future off the list, if it is on it.
fn come_off<C>(list: &WakerList<C>, sitting: Sitting<C>, ticket: Option<Ticket>) -> Sitting<C>
    requires { HasEntry sitting.seat ticket }
    ensures { ComesOff sitting.seat ticket result.seat }
{
    let Some(ticket) = ticket else {
        return sitting;
    };
    match lock_or_give_up(&list.state) {
        Err(gave_up) => {
            let sitting = sitting.give_up(&gave_up);
            ticket.abandon(gave_up);
            sitting
        }
        Ok(mut state) => {
            let state = &mut *state;
            sitting.came_off(state.remove(ticket, &list.listed))
        }
    }
}

impl<'a, C> Place<'a, C> {
    /// That of a future which is not on the list.
    #[inline]
    pub fn new(list: &'a WakerList<C>) -> Place<'a, C>
        ensures list { result.list.now ≡ list.now }
        ensures away { result.sitting.seat ≡ Away }
    {
        Place {
            list,
            sitting: Sitting::away(),
            ticket: None,
        }
    }

    /// That of a future which was apart from this list.
    #[inline]
    pub fn at(list: &'a WakerList<C>, spot: Spot<C>) -> Place<'a, C>
        requires { spot.source.value.id ≡ list.now.source.id }
        ensures { result.list.now ≡ list.now }
    {
        let Spot {
            source: _,
            sitting,
            ticket,
        } = spot;
        Place {
            list,
            sitting,
            ticket,
        }
    }

    /// The future, apart from its list.
    #[inline]
    pub fn apart(self) -> Spot<C>
        ensures source { result.source.value.id ≡ self.entry.list.now.source.id }
        ensures seat { result.sitting.seat ≡ self.entry.sitting.seat }
    {
        let Place {
            list,
            sitting,
            ticket,
        } = self;
        Spot {
            source: Snapshot::of(&list.source),
            sitting,
            ticket,
        }
    }

    /// Begins a look: sees whether a notify has taken the future off the list.
    pub fn rise(self) -> Look<'a, C>
        ensures list { result.place.list.now ≡ self.entry.list.now }
        ensures rises { Rises self.entry.sitting.seat result.place.sitting.seat }
    {
        let Place {
            list,
            sitting,
            ticket,
        } = self;
        let Some(ticket) = ticket else {
            let place = Place {
                list,
                sitting,
                ticket: None,
            };
            return Look { place };
        };
        let Ok(mut state) = lock_or_give_up(&list.state) else {
            let place = Place {
                list,
                sitting,
                ticket: Some(ticket),
            };
            return Look { place };
        };
        let state = &mut *state;
        let place = if state.is_listed(&ticket) {
            Place {
                list,
                sitting,
                ticket: Some(ticket),
            }
        } else {
            Place {
                list,
                sitting: sitting.came_off(state.remove(ticket, &list.listed)),
                ticket: None,
            }
        };
        Look { place }
    }

    /// The end of a future, which comes off the list. The wake of one that was taken off, and has not looked since, goes on to the next.
    pub fn leave(self) {
        let Place {
            list,
            sitting,
            ticket,
        } = self;
        let left = come_off(list, sitting, ticket).left();
        list.hand_on(left);
    }
}

impl<'a, C> Look<'a, C> {
    /// The condition is true, as its own code says. The future comes off the list; if a notify had taken it off, that wake goes on to the next.
    pub fn found(self, condition: C) -> Place<'a, C>
    where
        C: Drop,
        ensures list { result.list.now ≡ self.entry.place.list.now }
        ensures away { result.sitting.seat ≡ Away }
    {
        let Look { place } = self;
        let Place {
            list,
            sitting,
            ticket,
        } = place;
        let found = come_off(list, sitting.looked(true, condition), ticket);
        list.hand_on(found);
        Place::new(list)
    }

    /// The condition is not true, as its own code says.
    #[inline]
    pub fn in_vain(self, condition: C) -> Missed<'a, C>
    where
        C: Drop,
        ensures list { result.place.list.now ≡ self.entry.place.list.now }
        ensures looked { result.place.sitting.seat ≡ looked_of self.entry.place.sitting.seat false }
    {
        let Look { place } = self;
        let Place {
            list,
            sitting,
            ticket,
        } = place;
        let place = Place {
            list,
            sitting: sitting.looked(false, condition),
            ticket,
        };
        Missed { place }
    }

    /// The look cannot be made now. The future asks for another poll.
    pub fn put_off(self, cx: &mut Context<'_>) -> Place<'a, C>
        ensures place { result ≡ self.entry.place }
        ensures armed { IsArmed cx.new }
        ensures heard { (s : ℕ) → Hears cx.new s }
        ensures kept { Keeps cx.old cx.new }
    {
        let Look { place } = self;
        let _: Poll<()> = cx.yield_now();
        place
    }
}

impl<'a, C> Missed<'a, C> {
    /// The look was the one that a future makes once it is on the list. The future is pending.
    #[inline]
    pub fn rest(self) -> Place<'a, C>
        requires { self.place.sitting.seat ≡ Asleep }
        ensures { result ≡ self.entry.place }
    {
        let Missed { place } = self;
        place
    }
}

impl<C> Spot<C> {
    /// That of a future which is not on the list.
    #[inline]
    pub fn new(list: &WakerList<C>) -> Spot<C>
        ensures source { result.source.value.id ≡ list.now.source.id }
        ensures away { result.sitting.seat ≡ Away }
    {
        Place::new(list).apart()
    }

    /// Ends that of a future which is not on the list.
    #[inline]
    pub fn end(self)
        requires { self.sitting.seat ≡ Away }
    {
        let Spot {
            source: _,
            sitting,
            ticket,
        } = self;
        let None = ticket else { unreachable!() };
        sitting.end();
    }
}
