//! How a future enters a list.
ghost use Rattle.std.specs.Prelude.{◌≡◌};
ghost use Rattle.futures.specs.Task.{Covers, Keeps};
ghost use Rattle.waker_list.specs.Entries.{HasPlace, IsEnteredAt};

use crate::place::{Look, Missed, Place};
use futures::spin::lock_or_give_up;
use futures::task::{Context, Poll};

/// What a future does that has entered the list.
pub enum Entry<'a, C> {
    /// It looks once more.
    Look(Look<'a, C>),
    /// It is pending.
    Wait(Place<'a, C>),
}

impl<'a, C> Missed<'a, C> {
    /// The future enters the list, or stays on it, and leaves its waker there.
    pub fn enter(self, cx: &mut Context<'_>) -> Entry<'a, C>
        ensures list { HasPlace result (λ p. p.list.now ≡ self.entry.place.list.now) }
        ensures seat { IsEnteredAt cx.new result }
        ensures registered { Covers cx.new (λ s. s ≡ self.entry.place.list.now.source.id) }
        ensures kept { Keeps cx.old cx.new }
    {
        let Missed { place } = self;
        let Place {
            list,
            sitting,
            ticket,
        } = place;
        let Ok(mut state) = lock_or_give_up(&list.state) else {
            let _: Poll<()> = cx.yield_now();
            return Entry::Wait(Place {
                list,
                sitting,
                ticket,
            });
        };
        let state = &mut *state;
        if let Some(ticket) = ticket {
            if state.is_listed(&ticket) {
                state.register(cx, &list.source, &ticket);
                return Entry::Wait(Place {
                    list,
                    sitting,
                    ticket: Some(ticket),
                });
            }
            let sitting = sitting.came_off(state.remove(ticket, &list.listed));
            let _: Poll<()> = cx.yield_now();
            return Entry::Wait(Place {
                list,
                sitting,
                ticket: None,
            });
        }
        let Some(joined) = state.insert(cx, &list.source, &list.listed) else {
            let _: Poll<()> = cx.yield_now();
            return Entry::Wait(Place {
                list,
                sitting,
                ticket: None,
            });
        };
        let place = Place {
            list,
            sitting: sitting.entered(&joined),
            ticket: Some(joined.ticket()),
        };
        Entry::Look(Look { place })
    }
}
