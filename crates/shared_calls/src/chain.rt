//! A chain of blocks that parties share: how the driver takes a call's steps on it.
ghost use Rattle.mem_blocks.specs.Web.{sitter};
ghost use Rattle.queue_steps.specs.declared.steps.types.Kind.TheVariants as kinds;
ghost use Rattle.shared_calls.specs.InWeb.{RestsAt, EndedAt};
ghost use Rattle.shared_chain.specs.Turning.{Carries, GaveUp, SitsAt, ChainCan, ChainDoes, web_of};
ghost use Rattle.std.specs.Prelude.{◌≡◌, true, false, None, Some};

use crate::allocated_chain::AllocatedChain;
use crate::beginning::{FastSteps, OnChain};
use crate::pausing::wait_out;
use crate::running::Runs;
use call_driver::gate::Gate;
use call_driver::site::{SharedSite, Site};
use mem_blocks::item::Place;
use mem_blocks::web::Rested;
use queue_steps::model::{Call, CallKind, Reply};
use queue_steps::steps::{Answer, ChainSteps, Kind, Local, Op, Touch};
use shared_chain::source::Source;
use shared_chain::web::{ChainSeat, ChainWeb};
use shared_parties::known::CallState;
use std::alloc::Allocator;
use std::marker::PhantomData;
use std::ops::ControlFlow;
use std::sync::Wait;

/// A party's seat in a call, and where the blocks come from that the call asks for. So it names a site, too.
pub struct Asking<T, A: Allocator, Q> {
    pub seat: ChainSeat<T, A>,
    pub source: PhantomData<Q>,
}

impl<T, A: Allocator, Q: Source<T, A>> Site for Asking<T, A, Q> {
    type Shared = AllocatedChain<T, A>;

    type Item = T;

    type Block = Place<T>;

    type Seat = Asking<T, A, Q>;

    type Steps = ChainSteps;

    ghost use Rattle.std.specs.Prelude.{refl};
    ghost use Rattle.shared_calls.specs.ChainSite.{ChainSpares, ChainGives, ChainOnWay};
    ghost use Rattle.shared_calls.specs.Laws.ChainSite.{site_begins, site_goes_on};
    ghost use Rattle.shared_chain.specs.Turning.{ChainRests, ChainEnded};

    ghost kind_of = { λ _ _. kinds.Unbounded };

    ghost rests = { λ m s. ChainRests m.chain s.seat };

    ghost can = { λ m s k l u o x. ChainCan m.chain s.seat k l u o x };

    ghost does = { λ m s k l u o x a q y. ChainDoes s.seat k l u o x a q.seat y };

    ghost spares = { λ m s b. ChainSpares m.chain s.seat b };

    ghost gives = { λ m s b q. ChainGives m.chain s.seat b q.seat };

    ghost stands = { λ n m s c l a q x. ChainOnWay n m.chain s.seat c l a q.seat x };

    ghost ended = { λ m s c r q. ChainEnded m.chain s.seat c r q.seat };

    ghost steps_fit = { λ _ _. refl };

    ghost begins = { site_begins (λ m. m.chain) (λ s. s.seat) };

    ghost goes_on = { site_goes_on (λ m. m.chain) (λ s. s.seat) };

    ghost more = { λ n m first c l a s x h. h };

    #[inline(always)]
    fn kind(_queue: &AllocatedChain<T, A>, _asking: &Asking<T, A, Q>) -> Kind {
        Kind::Unbounded
    }

    #[inline(always)]
    fn take_step(
        queue: &AllocatedChain<T, A>,
        asking: &mut Asking<T, A, Q>,
        call: &CallKind,
        local: &Local<Place<T>>,
        todo: Touch,
        op: Op<Place<T>>,
        carried: &mut Option<T>,
    ) -> Answer<Place<T>>
        requires may { ChainCan queue.now.chain asking.old.seat call.now local.now todo op carried.old }
        ensures { ChainDoes asking.old.seat call.now local.now todo op carried.old result asking.new.seat carried.new }
    {
        queue.chain.take_step::<Q>(
            &queue.alloc,
            &mut asking.seat,
            call,
            local,
            todo,
            op,
            carried,
        )
    }

    fn give_up(queue: &AllocatedChain<T, A>, asking: &mut Asking<T, A, Q>, block: Place<T>)
        requires may { SitsAt queue.now.chain asking.old.seat × Carries (Some block) asking.old.seat.sitter }
        ensures { GaveUp asking.old.seat asking.new.seat }
    {
        queue.chain.give_up(&queue.alloc, &mut asking.seat, block);
    }
}

impl<T, A: Allocator, Q: Source<T, A>> SharedSite for Asking<T, A, Q> {
    ghost use Rattle.shared_chain.proofs.WaitFree.{chain_wait_free};
    ghost use Rattle.mem_blocks.specs.declared.block.BlockPtr.{BlockPtr as SpecPlace};

    ghost wait_free = { λ _ _ c h. chain_wait_free (SpecPlace T) c h };
}

impl<T, A: Allocator, Q> Asking<T, A, Q> {
    /// The seat of a party that begins a call.
    #[inline(always)]
    pub fn wake(chain: &ChainWeb<T, A>, party: &mut Rested<CallState<T>>) -> Self
        requires { (party.old.asleep ≡ true) × (party.old.web ≡ web_of chain.now) }
        ensures seat { SitsAt chain.now result.seat × (result.seat.sitter ≡ sitter party.old.view None None) }
        ensures left { party.new.asleep ≡ false }
    {
        Asking {
            seat: chain.wake(party),
            source: PhantomData,
        }
    }

    /// The party rests again.
    #[inline(always)]
    pub fn rests(self) -> Rested<CallState<T>>
        requires free { (self.seat.sitter.hand ≡ None) × (self.seat.sitter.spare ≡ None) }
        ensures { (result.asleep ≡ true) × (result.web ≡ self.seat.web) × (result.view ≡ self.seat.sitter.view) }
    {
        let Asking { seat, source: _ } = self;
        seat.rests()
    }
}

/// Makes a call of a party. The blocks that it asks for come from `Q`.
#[inline(always)]
pub fn run_in<T, A: Allocator, Q: Source<T, A>, V: Runs<T>>(
    queue: &AllocatedChain<T, A>,
    party: &mut Rested<CallState<T>>,
    run: V,
) -> Reply<T>
    requires rests { RestsAt (web_of queue.now.chain) party.old }
    requires may { V.may run }
    ensures { EndedAt party.old (V.call run) result party.new }
{
    let mut asking: Asking<T, A, Q> = Asking::wake(&queue.chain, party);
    let reply = run.run::<Asking<T, A, Q>, OnChain>(OnChain, queue, &mut asking);
    *party = asking.rests();
    reply
}

/// Runs a call of a party to its end, as `run_in` does one that may wait, with no other function between that may: each costs a test after its call.
#[inline(always)]
pub fn answer<T, A: Allocator, Q: Source<T, A>, G: Gate, R: Wait, W>(
    queue: &AllocatedChain<T, A>,
    rt: &R,
    gate: &G,
    party: &mut Rested<CallState<T>>,
    call: Call<T>,
) -> Reply<T>
    requires rests { RestsAt (web_of queue.now.chain) party.old }
    ensures { EndedAt party.old call result party.new }
{
    let mut asking: Asking<T, A, Q> = Asking::wake(&queue.chain, party);
    let begun = <OnChain as FastSteps<Asking<T, A, Q>>>::run::<G, W>(
        OnChain,
        queue,
        gate,
        &mut asking,
        call,
    );
    let reply = match begun {
        ControlFlow::Break(reply) => reply,
        ControlFlow::Continue(left) => {
            wait_out::<Asking<T, A, Q>, G, R>(rt, queue, gate, &mut asking, left)
        }
    };
    *party = asking.rests();
    reply
}
