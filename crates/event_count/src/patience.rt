//! How a thread waits between two looks: it pauses a few times, longer each time, and then it sleeps.
ghost use Rattle.std.specs.Prelude.{IsTrue};
ghost use Rattle.event_count.specs.Looks.{IsAwake, IsInVain};

use crate::{Deadline, EventCount, Missed, Never, Ticket};
use std::hint::spin_loop;
use std::sync::Wait;

/// How often a thread looks in vain, and pauses, before it sleeps. It does not give way to others: beside a busy thread that costs a whole slice of the scheduler's time.
const LOOKS: u32 = 10;

/// The most that a pause is doubled: it is 1, 2, 4 .. 64 times the processor's own.
const DOUBLINGS: u32 = 6;

/// Pauses after so many looks in vain.
fn pause(looks: u32) {
    for _ in 0..1u32 << looks.min(DOUBLINGS) {
        spin_loop();
    }
}

/// The waits of one call.
#[derive(Drop)]
pub struct Patience<'a, C> {
    awaited: &'a EventCount<C>,
    /// How often it has looked in vain since it slept.
    looks: u32,
}

/// A look at the condition that is to be made.
pub enum Look<'a, C> {
    /// Who looks in vain does not sleep.
    Awake,
    /// Who looks in vain sleeps.
    Prepared(Ticket<'a, C>),
}

/// A look at the condition that was made in vain.
pub enum Vain<'a, C> {
    /// Who looked does not sleep.
    Awake,
    /// Who looked sleeps.
    Missed(Missed<'a, C>),
}

impl<'a, C> Look<'a, C> {
    /// The condition is true, or its holder does not wait for it any more.
    #[inline(always)]
    pub fn found(self) {
        match self {
            Look::Awake => {}
            Look::Prepared(ticket) => ticket.found(),
        }
    }

    /// The condition is not true, as its own code says.
    #[inline(always)]
    pub fn in_vain(self, condition: C) -> Vain<'a, C>
    where
        C: Drop,
        ensures { IsInVain self.entry result }
    {
        match self {
            Look::Awake => Vain::Awake,
            Look::Prepared(ticket) => Vain::Missed(ticket.missed(condition)),
        }
    }
}

impl<C> Vain<'_, C> {
    /// Ends a look that is not waited after.
    #[inline(always)]
    pub fn end(self)
        requires { IsAwake self }
    {
        let Vain::Awake = self else { unreachable!() };
    }
}

impl<'a, C> Patience<'a, C> {
    #[inline]
    pub fn new(awaited: &'a EventCount<C>) -> Patience<'a, C> {
        Patience { awaited, looks: 0 }
    }

    /// Begins a look: with a ticket where its holder sleeps if it looks in vain.
    #[inline]
    pub fn look(&self) -> Look<'a, C> {
        if self.looks >= LOOKS {
            Look::Prepared(self.awaited.prepare())
        } else {
            Look::Awake
        }
    }

    /// Waits after a look in vain.
    #[inline]
    pub fn wait<R: Wait>(&mut self, rt: &R, vain: Vain<'a, C>) {
        self.wait_until(rt, vain, &Never);
    }

    /// Waits so until the deadline at most. Returns whether the wait is over: then the deadline has passed, as its clock says, and the look was made without a ticket, after all sleeps.
    pub fn wait_until<R: Wait, D: Deadline>(&mut self, rt: &R, vain: Vain<'a, C>, until: &D) -> bool
        ensures late { IsTrue result → D.can_pass until.now }
        ensures looked { IsTrue result → IsAwake vain.entry }
    {
        match vain {
            Vain::Missed(missed) => {
                missed.wait_until(rt, until);
                self.looks = 0;
                false
            }
            Vain::Awake => {
                if until.is_past() {
                    return true;
                }
                pause(self.looks);
                self.looks = self.looks.saturating_add(1);
                false
            }
        }
    }
}
