//! A call on a chain that has had no effect yet is given up.
ghost use Rattle.std.specs.Prelude.{◌≡◌};
ghost use Rattle.queue_laws.specs.Chain.ChainPasses.{spare_in};
ghost use Rattle.mem_blocks.specs.Seats.{Same};
ghost use Rattle.shared_parties.specs.declared.known.Work.TheVariants as work;
ghost use Rattle.shared_parties.specs.Quitting.{its_call};
ghost use Rattle.shared_chain.specs.Names.{link_of, name_map};
ghost use Rattle.shared_chain.specs.Quitting.{MayQuit, HasQuit, ShowsPlace};

use crate::web::{ChainSeat, ChainWeb};
use mem_blocks::hub::PARTIES;
use mem_blocks::item::{Item, Place};
use mem_blocks::web::Play;
use shared_parties::known::CallState;
use std::alloc::Allocator;

/// The seat is at nothing again.
pub struct Quits;

impl<T> Play<Item<T>, CallState<T>> for Quits {
    ghost use Rattle.shared_chain.specs.Quitting.{HasLeft};

    ghost then = { λ st m n q. HasLeft m q };
}

/// The seat is as it was.
pub struct Looks;

impl<T> Play<Item<T>, CallState<T>> for Looks {
    ghost use Rattle.std.specs.Prelude.{◌≡◌};
    ghost use Rattle.shared_chain.specs.Quitting.{ShowsPlace};

    ghost then = { λ st m n q. (q ≡ m) × ShowsPlace m };
}

impl<T, A: Allocator> ChainWeb<T, A> {
    ghost use Rattle.shared_chain.specs.Turning.{SitsAt, heap_of};

    /// Gives the call up that a seat is at, whose spare block goes back to the allocator. It takes a look at the chain, since what a seat knows changes only
    /// by one.
    pub fn quit(&self, alloc: &A, seat: &mut ChainSeat<T, A>, spare: Option<Place<T>>)
        requires of { heap_of self.now ≡ alloc.now }
        requires sits { SitsAt self.now seat.old }
        requires may { MayQuit seat.old.sitter }
        requires spare { spare ≡ name_map link_of (spare_in (its_call seat.old.sitter.view).local) }
        ensures same { Same seat.new seat.old }
        ensures quit { HasQuit seat.old.sitter seat.new.sitter }
    {
        self.web.load::<Quits>(seat, self.tail, PARTIES);
        if let Some(block) = spare {
            self.give_up(alloc, seat, block);
        }
    }

    /// Takes a look at the chain, which tells that a push is at one of its own places. It changes nothing.
    pub fn look(&self, seat: &mut ChainSeat<T, A>)
        requires sits { SitsAt self.now seat.old }
        requires calls { seat.old.sitter.view.work ≡ work.Calls (its_call seat.old.sitter.view) }
        ensures same { Same seat.new seat.old × (seat.new.sitter ≡ seat.old.sitter) }
        ensures shows { ShowsPlace seat.old.sitter }
    {
        self.web.load::<Looks>(seat, self.tail, PARTIES);
    }
}
