//! A party's call as a value: it runs at any site, so what tells the sites apart does so once for all calls.
ghost use Rattle.queue_steps.specs.declared.model.Call.{Call as SpecCall};

use crate::beginning::FastSteps;
use crate::pausing::wait_out;
use call_driver::driver::drive_wait_free;
use call_driver::gate::Gate;
use call_driver::site::SharedSite;
use queue_steps::model::{Call, Reply};
use std::marker::PhantomData;
use std::ops::ControlFlow;
use std::sync::Wait;

/// A call, wherever its steps are done.
pub trait Runs<T> {
    /// Which call it is.
    ghost call: { Self → SpecCall T };

    /// What has to be so of it.
    ghost may: { Self → Type 0 };

    /// Runs it to its end by a seat of a party between its calls.
    fn run<M: SharedSite<Item = T>, F: FastSteps<M> + Drop>(
        self,
        steps: F,
        site: &M::Shared,
        seat: &mut M::Seat,
    ) -> Reply<T>
        requires rests { M.rests site.now seat.old }
        requires may { may self }
        ensures { M.ended site.now seat.old (call self) result seat.new };
}

/// One that may wait: its fast steps, which do not, and then the others. `W` tells the calls apart, so that each has fast steps of its own.
pub struct Waits<'a, T, R, G, W> {
    pub rt: &'a R,
    pub gate: &'a G,
    pub call: Call<T>,
    pub of: PhantomData<W>,
}

impl<T, R: Wait, G: Gate, W> Runs<T> for Waits<'_, T, R, G, W> {
    ghost call = { λ w. w.call };

    ghost may = { λ w. Unit {0} };

    #[inline(always)]
    fn run<M: SharedSite<Item = T>, F: FastSteps<M> + Drop>(
        self,
        steps: F,
        site: &M::Shared,
        seat: &mut M::Seat,
    ) -> Reply<T>
        requires rests { M.rests site.now seat.old }
        ensures { M.ended site.now seat.old self.entry.call result seat.new }
    {
        let Waits {
            rt,
            gate,
            call,
            of: _,
        } = self;
        match steps.run::<G, W>(site, gate, seat, call) {
            ControlFlow::Break(reply) => reply,
            ControlFlow::Continue(left) => wait_out::<M, G, R>(rt, site, gate, seat, left),
        }
    }
}

/// One that ends by its second step, whatever others do.
pub struct WaitFree<'a, T, G> {
    pub gate: &'a G,
    pub call: Call<T>,
}

impl<T, G: Gate> Runs<T> for WaitFree<'_, T, G> {
    ghost use Rattle.std.specs.Prelude.{◌≡◌, true};
    ghost use Rattle.queue_steps.specs.WaitFree.{is_wait_free};

    ghost call = { λ w. w.call };

    ghost may = { λ w. is_wait_free w.call ≡ true };

    #[inline(always)]
    fn run<M: SharedSite<Item = T>, F: FastSteps<M> + Drop>(
        self,
        steps: F,
        site: &M::Shared,
        seat: &mut M::Seat,
    ) -> Reply<T>
        requires rests { M.rests site.now seat.old }
        requires may { is_wait_free self.call ≡ true }
        ensures { M.ended site.now seat.old self.entry.call result seat.new }
    {
        drop(steps);
        let WaitFree { gate, call } = self;
        drive_wait_free::<M, G>(site, gate, seat, call)
    }
}
