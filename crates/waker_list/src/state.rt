//! What a list keeps under its lock.
ghost use Rattle.std.specs.Prelude.{◌≡◌, true, ◌↔◌, IsTrue, IfSome, is_none, slice_get};
ghost use Rattle.futures.specs.Task.{Covers, Keeps};
ghost use Rattle.futures.specs.WaitList.{queue, IsQueued, Leaves};
ghost use Rattle.waker_list.specs.Listing.{Inserts, Stays, IsTaking, Takes};

use crate::listed::{Listed, Shown};
use event_count::wakes::ListStep;
use futures::task::{Context, Poll, Source};
use futures::util::wait_list::{Ticket, WaitList};
use std::alloc::{AllocError, Global};

/// The futures that wait, in their order.
#[derive(Drop)]
pub(crate) struct State {
    waiters: WaitList<()>,
    /// What the word says.
    shown: Shown,
    ghost right: { shown.nobody ≡ is_none (slice_get (queue waiters) 0) },
}

/// Futures were taken off the list for a notify, if there were any. Only the list makes one.
pub(crate) struct Taken {
    step: ListStep,
    nobody: bool,
}

/// An entry that is at the end of the list. Only the list makes one.
pub(crate) struct Joined {
    ticket: Ticket,
}

/// An entry has ended, which a notify had taken off the list or not. Only the list makes one.
pub(crate) struct Ended {
    taken_off: bool,
}

impl Taken {
    pub(crate) fn nobody(self) -> bool
        ensures { result ≡ self.nobody }
    {
        let Taken { step: _, nobody } = self;
        nobody
    }
}

impl Joined {
    pub(crate) fn ticket(self) -> Ticket
        ensures { result ≡ self.ticket }
    {
        let Joined { ticket } = self;
        ticket
    }
}

impl Ended {
    pub(crate) fn taken_off(self) -> bool
        ensures { result ≡ self.taken_off }
    {
        let Ended { taken_off } = self;
        taken_off
    }
}

/// Whether nobody is on the list.
fn is_empty(waiters: &WaitList<()>) -> bool
    ensures { result ≡ is_none (slice_get (queue waiters.now) 0) }
{
    waiters.front().is_none()
}

impl State {
    pub(crate) fn new(alloc: Global, shown: Shown) -> Result<State, AllocError>
        requires { shown.nobody ≡ true }
    {
        Ok(State {
            waiters: WaitList::new(alloc)?,
            shown,
        })
    }

    /// Whether the future with this entry is on the list.
    pub(crate) fn is_listed(&self, ticket: &Ticket) -> bool
        ensures { IsTrue result ↔ IsQueued self.now.waiters ticket.now.key }
    {
        self.waiters.is_queued(ticket.key())
    }

    /// Puts a future at the end of the list, with its waker, if there is memory for its entry.
    pub(crate) fn insert(
        &mut self,
        cx: &mut Context<'_>,
        source: &Source,
        listed: &Listed,
    ) -> Option<Joined>
        ensures inserts { Inserts cx.old self.old.waiters result cx.new self.new.waiters }
        ensures registered { IfSome result (λ _. Covers cx.new (λ s. s ≡ source.now.id)) }
        ensures kept { Keeps cx.old cx.new }
    {
        let ticket = self.waiters.insert(()).ok()?;
        let key = ticket.key();
        self.waiters.enqueue(key);
        let _: Poll<()> = self.waiters.register(cx, source, key);
        self.shown = listed.show(is_empty(&self.waiters));
        Some(Joined { ticket })
    }

    /// Leaves the waker of a future that is on the list.
    pub(crate) fn register(&mut self, cx: &mut Context<'_>, source: &Source, ticket: &Ticket)
        requires { IsQueued self.old.waiters ticket.now.key }
        ensures stays { Stays cx.old self.old.waiters ticket.now.key cx.new self.new.waiters }
        ensures registered { Covers cx.new (λ s. s ≡ source.now.id) }
        ensures kept { Keeps cx.old cx.new }
    {
        let _: Poll<()> = self.waiters.register(cx, source, ticket.key());
    }

    /// Ends an entry. The future comes off the list, if it is on it.
    pub(crate) fn remove(&mut self, ticket: Ticket, listed: &Listed) -> Ended
        ensures leaves { Leaves self.old.waiters self.new.waiters ticket.key }
        ensures taken_off { IsTrue result.taken_off ↔ ¬ IsQueued self.old.waiters ticket.key }
    {
        let taken_off = !self.is_listed(&ticket);
        let key = self.waiters.redeem(ticket);
        self.waiters.remove(key);
        self.shown = listed.show(is_empty(&self.waiters));
        Ended { taken_off }
    }

    /// The step of a notify that takes futures off the list, and wakes them.
    pub(crate) fn take(&mut self, step: ListStep, listed: &Listed) -> Taken
        requires { IsTaking step }
        ensures step { result.step ≡ step }
        ensures nobody { result.nobody ≡ is_none (slice_get (queue self.old.waiters) 0) }
        ensures takes { Takes step self.old.waiters self.new.waiters }
    {
        let nobody = is_empty(&self.waiters);
        match step {
            ListStep::TakeOne => {
                self.waiters.wake_front();
            }
            ListStep::TakeAll => self.waiters.wake_all(),
            ListStep::Rest | ListStep::Load => unreachable!(),
        }
        self.shown = listed.show(is_empty(&self.waiters));
        Taken { step, nobody }
    }
}
