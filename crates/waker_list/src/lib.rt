//! A list of wakers: futures that wait for a condition are pending, and who makes it true wakes them. It knows nothing of the condition.
//!
//! The order of a poll, and of a notify, is in the types. A poll begins a [`Look`], looks at the condition with it in hand, and says what it found. If it looked in vain it enters the list,
//! which gives a second look: it looks once more, and is pending if it finds nothing. Who makes the condition true is given an [`OwesOne`] or an [`OwesAll`] of the list: a notify that is
//! owed. It cannot be dropped, and only the steps of that notify end it. A future that was taken off the list, and ends before it looks again, hands its wake on.
//!
//! `C` is the condition, a type of which only the code that looks at the condition, or makes it true, can make a value. That code hands one in for each look, and for each notify that it
//! owes.
//!
//! A notify is one load where no future is on the list.
#![tactic(auto)]

ghost use Rattle.std.specs.Prelude.{◌≡◌, IsTrue};
ghost use Rattle.event_count.specs.declared.wakes.seats.ListStep.TheVariants.{Load};
ghost use Rattle.event_count.specs.Sleep.Seats.{step_of};
ghost use Rattle.waker_list.specs.Listing.{IsTaking};
ghost use Rattle.waker_list.specs.Places.{is_settled};

mod listed;
mod owed;
mod place;
mod sitting;
mod state;

use crate::listed::Listed;
use crate::sitting::Sitting;
use crate::state::State;
use futures::spin::lock_or_give_up;
use futures::task::Source;
pub use owed::{OwesAll, OwesOne};
pub use place::{Entry, Look, Missed, Place, Spot};
use std::alloc::{AllocError, Global};
use std::marker::PhantomData;
use std::sync::Mutex;

/// The futures that wait for a condition, in their order, and whether there are any.
#[derive(Drop)]
pub struct WakerList<C> {
    listed: Listed,
    /// What contracts call the list.
    source: Source,
    state: Mutex<State>,
    condition: PhantomData<C>,
}

impl<C> WakerList<C> {
    /// A list with no future on it.
    ///
    /// # Errors
    ///
    /// There is no memory.
    pub fn new(alloc: Global) -> Result<WakerList<C>, AllocError> {
        let (listed, shown) = Listed::new();
        Ok(WakerList {
            listed,
            source: Source::new(),
            state: Mutex::new(State::new(alloc, shown)?),
            condition: PhantomData,
        })
    }

    /// The condition was made true for one that waits, as its own code says.
    #[inline(always)]
    pub fn owe_one(&self, condition: C) -> OwesOne<'_, C>
    where
        C: Drop,
        ensures { result.list.now ≡ self.now }
    {
        OwesOne::at(self, condition)
    }

    /// The condition was made true for all that wait, as its own code says.
    #[inline(always)]
    pub fn owe_all(&self, condition: C) -> OwesAll<'_, C>
    where
        C: Drop,
        ensures { result.list.now ≡ self.now }
    {
        OwesAll::at(self, condition)
    }

    /// The steps of a notify.
    #[inline(always)]
    fn notify(&self, owing: Sitting<C>)
        requires { step_of owing.seat ≡ Load }
    {
        let loaded = owing.loaded(self.listed.load());
        if loaded.is_away() {
            loaded.end();
        } else {
            self.wake(loaded);
        }
    }

    /// The steps of a notify that found somebody on the list.
    #[cold]
    #[inline(never)]
    fn wake(&self, waking: Sitting<C>)
        requires { IsTaking (step_of waking.seat) }
    {
        match lock_or_give_up(&self.state) {
            Err(gave_up) => waking.give_up(&gave_up).end(),
            Ok(mut state) => {
                let state = &mut *state;
                let taken = state.take(waking.step(), &self.listed);
                waking.taken(taken).end();
            }
        }
    }

    /// A wake that came to a future which does not need it goes on to the next.
    fn hand_on(&self, settled: Sitting<C>)
        requires { IsTrue (is_settled settled.seat) }
    {
        if settled.is_away() {
            settled.end();
        } else {
            self.notify(settled);
        }
    }
}
