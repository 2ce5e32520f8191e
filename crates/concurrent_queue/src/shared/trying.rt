//! Calls that answer busy in the place of waiting.
ghost use Rattle.std.specs.Prelude.{◌≡◌, ◌≢◌, ℕ, None};
ghost use Rattle.queue_steps.specs.declared.model.Call.{Call as SpecCall};
ghost use Rattle.queue_steps.specs.declared.model.Call.TheVariants as call;
ghost use Rattle.queue_steps.specs.declared.steps.types.Next.{Next as SpecNext};
ghost use Rattle.queue_laws.specs.Chain.ChainEarly.{IsPush};
ghost use Rattle.shared_parties.specs.Calling.{cap_of};
ghost use Rattle.shared_calls.specs.Settling.{MayWait};
ghost use Rattle.shared_calls.specs.Trying.{SomeLeft, EndsOrQuits};
ghost use Rattle.concurrent_queue.specs.declared.party.SeatPlace.TheVariants as place;
ghost use Rattle.concurrent_queue.specs.Calling.{IsHeldAt};
ghost use Rattle.concurrent_queue.specs.Shared.{IsPartyOf, IsHeld, PartyView, party_view_of};
ghost use Rattle.concurrent_queue.specs.Tries.{Tries, TriesPush, TriesForcePush, TriesPop};

use super::Form;
use super::calling::on_ring;
use crate::party::{Party, SeatPlace};
use crate::shared::ConcurrentQueue;
use crate::try_errors::{TryForcePushError, TryPopError, TryPushError};
use atomic_table::Seat;
use call_driver::gate::Open;
use call_driver::site::Site;
use mem_blocks::null_testable::NullTestable;
use queue_steps::errors::{ForcePushError, PopError, PushError};
use queue_steps::model::{Call, Reply};
use shared_calls::attempts::{attempt_in, end_or_quit_at, retold};
use shared_calls::beginning::{FastSteps, OnRing, OnSlot};
use shared_calls::left::Left;
use shared_parties::known::CallState;
use shared_tables::ring::Rings;
use shared_tables::slot::Slots;
use shared_tables::table::{SharedTable, TableSteps};
use std::alloc::Allocator;
use std::ops::ControlFlow;

/// A call which gives up where it would wait, for the driver: each has fast steps of its own, also beside those that wait.
pub(crate) trait Attempt<T> {
    /// What the call is given, and what its caller is told.
    type Given;

    type Told;

    /// The call.
    ghost asks: { Self.Given → SpecCall T };

    /// What its caller is told, of the party as it was and as it is.
    ghost tells: { PartyView T → Self.Given → Self.Told → PartyView T → Type 0 };

    fn ask(given: Self::Given) -> Call<T>
        ensures { result ≡ asks given };

    /// What its caller is told where it was answered so, or came back.
    fn tell(told: ControlFlow<Reply<T>, Option<T>>) -> Self::Told
        requires told { (v w : PartyView T) × (x : Self.Given) × Tries v (asks x) told w }
        ensures { (v w : PartyView T) (x : Self.Given) → Tries v (asks x) told w → tells v x result w };
}

pub(crate) struct TryPushes;

pub(crate) struct TryDisplaces;

pub(crate) struct TryPops;

impl<T> Attempt<T> for TryPushes {
    type Given = T;

    type Told = Result<(), TryPushError<T>>;

    ghost asks = { call.Push };

    ghost tells = { TriesPush };

    #[inline(always)]
    fn ask(value: T) -> Call<T> {
        Call::Push(value)
    }

    #[inline(always)]
    fn tell(told: ControlFlow<Reply<T>, Option<T>>) -> Result<(), TryPushError<T>>
        requires told { (v w : PartyView T) × (x : T) × Tries v (call.Push x) told w }
        ensures { (v w : PartyView T) (x : T) → Tries v (call.Push x) told w → TriesPush v x result w }
    {
        match told {
            ControlFlow::Break(Reply::Push(Ok(()))) => Ok(()),
            ControlFlow::Break(Reply::Push(Err(PushError::Full(value)))) => Err(TryPushError::Full(
                value,
            )),
            ControlFlow::Break(Reply::Push(Err(PushError::Closed(value)))) => Err(
                TryPushError::Closed(value),
            ),
            ControlFlow::Break(Reply::Push(Err(PushError::NoMemory(value)))) => Err(
                TryPushError::NoMemory(value),
            ),
            ControlFlow::Continue(Some(value)) => Err(TryPushError::Busy(value)),
            _ => unreachable!(),
        }
    }
}

impl<T> Attempt<T> for TryDisplaces {
    type Given = T;

    type Told = Result<Option<T>, TryForcePushError<T>>;

    ghost asks = { call.ForcePush };

    ghost tells = { TriesForcePush };

    #[inline(always)]
    fn ask(value: T) -> Call<T> {
        Call::ForcePush(value)
    }

    #[inline(always)]
    fn tell(told: ControlFlow<Reply<T>, Option<T>>) -> Result<Option<T>, TryForcePushError<T>>
        requires told { (v w : PartyView T) × (x : T) × Tries v (call.ForcePush x) told w }
        ensures { (v w : PartyView T) (x : T) → Tries v (call.ForcePush x) told w → TriesForcePush v x result w }
    {
        match told {
            ControlFlow::Break(Reply::ForcePush(Ok(old))) => Ok(old),
            ControlFlow::Break(Reply::ForcePush(Err(ForcePushError::Closed(value)))) => Err(
                TryForcePushError::Closed(value),
            ),
            ControlFlow::Break(Reply::ForcePush(Err(ForcePushError::NoMemory(value)))) => Err(
                TryForcePushError::NoMemory(value),
            ),
            ControlFlow::Continue(Some(value)) => Err(TryForcePushError::Busy(value)),
            _ => unreachable!(),
        }
    }
}

impl<T> Attempt<T> for TryPops {
    type Given = ();

    type Told = Result<T, TryPopError>;

    ghost asks = { λ _. call.Pop };

    ghost tells = { λ v _ r w. TriesPop v r w };

    #[inline(always)]
    fn ask(_given: ()) -> Call<T> {
        Call::Pop
    }

    #[inline(always)]
    fn tell(told: ControlFlow<Reply<T>, Option<T>>) -> Result<T, TryPopError>
        requires told { (v w : PartyView T) × Unit {0} × Tries v call.Pop told w }
        ensures { (v w : PartyView T) → Unit {0} → Tries v call.Pop told w → TriesPop v result w }
    {
        match told {
            ControlFlow::Break(Reply::Pop(Ok(item))) => Ok(item),
            ControlFlow::Break(Reply::Pop(Err(PopError::Empty))) => Err(TryPopError::Empty),
            ControlFlow::Break(Reply::Pop(Err(PopError::Closed))) => Err(TryPopError::Closed),
            ControlFlow::Continue(value) => {
                let None = value else { unreachable!() };
                Err(TryPopError::Busy)
            }
            _ => unreachable!(),
        }
    }
}

/// Goes on with a call that has left its fast steps. What is lent there is this function's own: what a function lends of its own is cleared where it begins, so in the text of the fast steps each call would pay for it.
#[inline(always)]
fn end_or_quit<T, K: TableSteps<T>, A: Allocator>(
    table: &SharedTable<T, K, A>,
    seat: &mut Seat<Option<T>, CallState<T>>,
    left: Left<T, usize>,
) -> ControlFlow<Reply<T>, Option<T>>
    requires left { SomeLeft ⟦<SharedTable<T, K, A> as Site>⟧ (λ c. Unit {0}) table.now left seat.old }
    requires ends { (todo : SpecNext ℕ) → ¬ (MayWait (K.layout table.now.table.shared.table_id.slots).calls.kind todo) }
    ensures { EndsOrQuits ⟦<SharedTable<T, K, A> as Site>⟧ (cap_of (K.layout table.now.table.shared.table_id.slots).calls) table.now left seat.old result seat.new }
{
    retold(end_or_quit_at(table, seat, left.apart()))
}

/// Makes a call at a table which gives up where it would wait. Each way out makes what the caller is told in place, so that the compiler knows there what the call was answered.
#[inline(always)]
fn attempt_at<
    T,
    K: TableSteps<T>,
    A: Allocator,
    F: FastSteps<SharedTable<T, K, A>> + Drop,
    W: Attempt<T>,
>(
    steps: F,
    table: &SharedTable<T, K, A>,
    seat: &mut Seat<Option<T>, CallState<T>>,
    given: W::Given,
) -> W::Told
    requires held { IsHeldAt K.layout table.now.table.shared.table_id seat.old }
    requires ends { (todo : SpecNext ℕ) → ¬ (MayWait (K.layout table.now.table.shared.table_id.slots).calls.kind todo) }
    ensures { IsHeld (place.Table seat.new) × W.tells (party_view_of (place.Table seat.old)) given result (party_view_of (place.Table seat.new)) }
{
    let call = W::ask(given);
    match steps.run::<Open, W>(table, &Open, seat, call) {
        ControlFlow::Break(reply) => W::tell(ControlFlow::Break(reply)),
        ControlFlow::Continue(left) => W::tell(end_or_quit(table, seat, left)),
    }
}

impl<T, A: NullTestable> ConcurrentQueue<T, A> {
    /// Makes a call which gives up where it would wait.
    #[inline(always)]
    fn attempt<W: Attempt<T>>(&self, party: &mut Party<T>, given: W::Given) -> W::Told
        requires is_party { IsPartyOf party.old self.now }
        requires pushes { self.now.cap ≡ None → IsPush (W.asks given) }
        ensures { W.tells party.old given result party.new }
    {
        match (&self.form, &mut party.place) {
            (Form::Slot(slot), SeatPlace::Table(seat)) => {
                attempt_at::<T, Slots, A, OnSlot, W>(OnSlot, slot, seat, given)
            }
            (Form::Ring(ring), SeatPlace::Table(seat)) => {
                attempt_at::<T, Rings, A, OnRing, W>(on_ring(ring), ring, seat, given)
            }
            (Form::Chain(queue), SeatPlace::Web(rested)) => {
                let call = W::ask(given);
                W::tell(attempt_in::<T, A, W>(queue, rested, call))
            }
            _ => unreachable!(),
        }
    }

    /// Appends `value`, without waiting.
    ///
    /// # Errors
    ///
    /// Those of `push`, and `Busy` with the value where another call was half done: nothing has happened then.
    pub fn try_push(&self, party: &mut Party<T>, value: T) -> Result<(), TryPushError<T>>
        requires is_party { IsPartyOf party.old self.now }
        ensures { TriesPush party.old value result party.new }
    {
        self.attempt::<TryPushes>(party, value)
    }

    /// Appends `value`, and takes the front off and hands it out where the queue was full, without waiting.
    ///
    /// # Errors
    ///
    /// Those of `force_push`, and `Busy` with the value where another call was half done: nothing has happened then.
    pub fn try_force_push(
        &self,
        party: &mut Party<T>,
        value: T,
    ) -> Result<Option<T>, TryForcePushError<T>>
        requires is_party { IsPartyOf party.old self.now }
        ensures { TriesForcePush party.old value result party.new }
    {
        self.attempt::<TryDisplaces>(party, value)
    }

    /// Takes the front off, without waiting, on a queue with a capacity. On a chain of blocks a pop that has taken its item may have to wait until that is
    /// written, and cannot give it back: there `begin` and `give_up` say more.
    ///
    /// # Errors
    ///
    /// Those of `pop`, and `Busy` where another call was half done: nothing has happened then.
    pub fn try_pop(&self, party: &mut Party<T>) -> Result<T, TryPopError>
        requires is_party { IsPartyOf party.old self.now }
        requires capped { self.now.cap ≢ None }
        ensures { TriesPop party.old result party.new }
    {
        self.attempt::<TryPops>(party, ())
    }
}
