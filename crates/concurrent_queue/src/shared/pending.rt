//! Calls that never wait: one that meets another call half done is handed back as it stands, and taken up again later.
ghost use Rattle.std.specs.Prelude.{◌≡◌, None, Some};
ghost use Rattle.concurrent_queue.specs.declared.party.SeatPlace.TheVariants as place;
ghost use Rattle.concurrent_queue.specs.Begun.{Begun as SpecBegun};
ghost use Rattle.concurrent_queue.specs.declared.shared.Form.TheVariants as form;
ghost use Rattle.concurrent_queue.specs.Calling.{IsHeldAt, IsHeldIn};
ghost use Rattle.concurrent_queue.specs.Comes.{Comes, ComesInto};
ghost use Rattle.concurrent_queue.specs.Leaves.{LeavesHere, LeavesInside};
ghost use Rattle.concurrent_queue.specs.Pending.{StopsHere, StopsInside};
ghost use Rattle.concurrent_queue.specs.OneHeap.{IsOneHeap};
ghost use Rattle.concurrent_queue.specs.Shared.{IsPartyOf, party_view_of};

use super::Begins;
use super::calling::on_ring;
use super::standing::{Seated, Standing, Stopping};
use crate::party::{Party, SeatPlace};
use crate::shared::ConcurrentQueue;
use atomic_table::Seat;
use call_driver::gate::Open;
use call_driver::site::Site;
use mem_blocks::item::Place;
use mem_blocks::null_testable::NullTestable;
use mem_blocks::web::Rested;
use queue_steps::model::{Call, Reply};
use shared_calls::allocated_chain::AllocatedChain;
use shared_calls::beginning::{FastSteps, OnChain, OnSlot};
use shared_calls::chain::Asking;
use shared_calls::left::Left;
use shared_calls::pausing::carry_on;
use shared_chain::source::Granting;
use shared_parties::known::CallState;
use shared_tables::table::SharedTable;
use std::alloc::{Allocator, Global};
use std::marker::Model;
use std::ops::ControlFlow;

/// Where a call stands that is on its way, with its party's seat.
pub(crate) enum CallPlace<T, A: Allocator> {
    /// On one slot.
    Slot(Seat<Option<T>, CallState<T>>, Left<T, usize>),
    /// On a ring.
    Ring(Seat<Option<T>, CallState<T>>, Left<T, usize>),
    /// On a chain of blocks.
    Chain(Asking<T, A, Granting>, Left<T, Place<T>>),
}

/// A call on its way, with its party, which can do nothing else until the call has its reply.
///
/// A contract sees the party as it was when the call began, and the call.
pub struct Pending<T, A: Allocator = Global> {
    pub(crate) place: CallPlace<T, A>,
}

impl<T, A: Allocator> Model for Pending<T, A> {
    ghost use Rattle.concurrent_queue.specs.Begun.{Begun};

    ghost Value = { Begun T };

    ghost use Rattle.concurrent_queue.specs.Pending.{begun_of, IsStopped};

    ghost view = { λ p. begun_of p.place };

    ghost invariant = { λ p. IsStopped p.place };
}

impl<T: Drop, A: Allocator> Drop for Pending<T, A> {
    /// The call never ends, and its party does not come back, so the sharing cannot be ended. The value that the call carries is dropped, and what lies in a
    /// slot stays the queue's. On a chain the slot or the block that the call has in hand is lost.
    fn drop(self) {
        let Pending { place } = self;
        match place {
            CallPlace::Slot(seat, left) | CallPlace::Ring(seat, left) => {
                drop(seat);
                left.forgo();
            }
            CallPlace::Chain(asking, left) => {
                let Asking { seat, source: _ } = asking;
                seat.leave();
                left.forgo();
            }
        }
    }
}

/// What a call has come to.
#[derive(Drop)]
pub enum Outcome<T, A: Allocator = Global> {
    /// Its reply, and its party after the call.
    Done(Party<T>, Reply<T>),
    /// It has met another call half done, or others were before it in each of its tries.
    Pending(Pending<T, A>),
}

impl<T, A: Allocator> Pending<T, A> {
    ghost use Rattle.concurrent_queue.specs.Pending.{begun_of, IsStopped};

    /// The call that stands there.
    pub(crate) fn at(place: CallPlace<T, A>) -> Self
        requires { IsStopped place }
        ensures { result ≡ begun_of place }
    {
        Pending { place }
    }

    /// Where it stands.
    pub(crate) fn into_place(self) -> CallPlace<T, A>
        ensures stops { IsStopped result }
        ensures begun { begun_of result ≡ self }
    {
        let Pending { place } = self;
        place
    }
}

/// Keeps a call on its way, where none is kept.
fn keep<T, A: Allocator>(pending: Pending<T, A>, kept: &mut Option<Pending<T, A>>)
    requires { kept.old ≡ None }
    ensures { kept.new ≡ Some pending }
{
    let none = std::mem::replace(kept, Some(pending));
    let None = none else { unreachable!() };
}

/// Goes on with a call at a table that has left its fast steps.
#[cold]
#[inline(never)]
fn go_on_here<T, K: Stopping<T>, A: Allocator>(
    table: &SharedTable<T, K, A>,
    seat: Seat<Option<T>, CallState<T>>,
    left: Left<T, usize>,
    kept: &mut Option<Pending<T, A>>,
) -> Option<(Party<T>, Reply<T>)>
    requires none { kept.old ≡ None }
    requires left { (v : SpecBegun T) × LeavesHere ⟦<SharedTable<T, K, A> as Site>⟧ K.layout table.now.table.shared.table_id table.now left seat v }
    ensures { (v : SpecBegun T) → LeavesHere ⟦<SharedTable<T, K, A> as Site>⟧ K.layout table.now.table.shared.table_id table.now left seat v → ComesInto v.party v.call result kept.new }
{
    let mut seat = seat;
    match carry_on::<SharedTable<T, K, A>, Open>(table, &Open, &mut seat, left) {
        ControlFlow::Break(reply) => Some((Party::at(SeatPlace::Table(seat)), reply)),
        ControlFlow::Continue(left) => {
            keep(K::stopped(seat, left), kept);
            None
        }
    }
}

/// The same. What is lent there is this function's own, so that the fast steps clear none of it.
#[inline(always)]
fn go_on_here_apart<T, K: Stopping<T>, A: Allocator>(
    table: &SharedTable<T, K, A>,
    seat: Seat<Option<T>, CallState<T>>,
    left: Left<T, usize>,
    kept: &mut Option<Pending<T, A>>,
) -> Option<(Party<T>, Reply<T>)>
    requires none { kept.old ≡ None }
    requires left { (v : SpecBegun T) × LeavesHere ⟦<SharedTable<T, K, A> as Site>⟧ K.layout table.now.table.shared.table_id table.now left seat v }
    ensures { (v : SpecBegun T) → LeavesHere ⟦<SharedTable<T, K, A> as Site>⟧ K.layout table.now.table.shared.table_id table.now left seat v → ComesInto v.party v.call result kept.new }
{
    match go_on_here(table, seat, left.apart(), kept) {
        Some((party, reply)) => Some((party, reply)),
        None => None,
    }
}

/// Begins a call at a table of any kind.
#[inline(always)]
fn begin_here<T, K: Stopping<T>, A: Allocator, F: FastSteps<SharedTable<T, K, A>> + Drop, W>(
    steps: F,
    table: &SharedTable<T, K, A>,
    seat: Seat<Option<T>, CallState<T>>,
    call: Call<T>,
    kept: &mut Option<Pending<T, A>>,
) -> Option<(Party<T>, Reply<T>)>
    requires held { IsHeldAt K.layout table.now.table.shared.table_id seat }
    requires none { kept.old ≡ None }
    ensures { ComesInto (party_view_of (place.Table seat)) call result kept.new }
{
    let mut seat = seat;
    match steps.run::<Open, W>(table, &Open, &mut seat, call) {
        ControlFlow::Break(reply) => Some((Party::at(SeatPlace::Table(seat)), reply)),
        ControlFlow::Continue(left) => go_on_here_apart(table, seat, left, kept),
    }
}

/// Goes on with a call in a chain that has left its fast steps.
#[cold]
#[inline(never)]
fn go_on_inside<T, A: NullTestable>(
    queue: &AllocatedChain<T, A>,
    asking: Asking<T, A, Granting>,
    left: Left<T, Place<T>>,
    kept: &mut Option<Pending<T, A>>,
) -> Option<(Party<T>, Reply<T>)>
    requires none { kept.old ≡ None }
    requires left { (v : SpecBegun T) × LeavesInside ⟦<Asking<T, A, Granting> as Site>⟧ queue.now left asking v }
    ensures { (v : SpecBegun T) → LeavesInside ⟦<Asking<T, A, Granting> as Site>⟧ queue.now left asking v → ComesInto v.party v.call result kept.new }
{
    let mut asking = asking;
    match carry_on::<Asking<T, A, Granting>, Open>(queue, &Open, &mut asking, left) {
        ControlFlow::Break(reply) => { Some((Party::at(SeatPlace::Web(asking.rests())), reply)) }
        ControlFlow::Continue(left) => {
            keep(Pending::at(CallPlace::Chain(asking, left)), kept);
            None
        }
    }
}

/// The same. What is lent there is this function's own.
#[inline(always)]
fn go_on_inside_apart<T, A: NullTestable>(
    queue: &AllocatedChain<T, A>,
    asking: Asking<T, A, Granting>,
    left: Left<T, Place<T>>,
    kept: &mut Option<Pending<T, A>>,
) -> Option<(Party<T>, Reply<T>)>
    requires none { kept.old ≡ None }
    requires left { (v : SpecBegun T) × LeavesInside ⟦<Asking<T, A, Granting> as Site>⟧ queue.now left asking v }
    ensures { (v : SpecBegun T) → LeavesInside ⟦<Asking<T, A, Granting> as Site>⟧ queue.now left asking v → ComesInto v.party v.call result kept.new }
{
    match go_on_inside(queue, asking, left.apart(), kept) {
        Some((party, reply)) => Some((party, reply)),
        None => None,
    }
}

/// Begins a call in a chain.
#[inline(always)]
fn begin_inside<T, A: NullTestable, W>(
    queue: &AllocatedChain<T, A>,
    rested: Rested<CallState<T>>,
    call: Call<T>,
    kept: &mut Option<Pending<T, A>>,
) -> Option<(Party<T>, Reply<T>)>
    requires held { IsHeldIn (form.Chain queue.now) (place.Web rested) }
    requires none { kept.old ≡ None }
    ensures { ComesInto (party_view_of (place.Web rested)) call result kept.new }
{
    let mut rested = rested;
    let mut asking: Asking<T, A, Granting> = Asking::wake(&queue.chain, &mut rested);
    let begun = <OnChain as FastSteps<Asking<T, A, Granting>>>::run::<Open, W>(
        OnChain,
        queue,
        &Open,
        &mut asking,
        call,
    );
    match begun {
        ControlFlow::Break(reply) => { Some((Party::at(SeatPlace::Web(asking.rests())), reply)) }
        ControlFlow::Continue(left) => go_on_inside_apart(queue, asking, left, kept),
    }
}

/// What a call has come to, which has ended or is kept.
#[inline(always)]
fn outcome_of<T, A: Allocator>(
    ended: Option<(Party<T>, Reply<T>)>,
    kept: Option<Pending<T, A>>,
) -> Outcome<T, A>
    requires comes { (v : SpecBegun T) × ComesInto v.party v.call ended kept }
    ensures { (v : SpecBegun T) → ComesInto v.party v.call ended kept → Comes v.party v.call result }
{
    match (ended, kept) {
        (Some((party, reply)), None) => Outcome::Done(party, reply),
        (None, Some(pending)) => Outcome::Pending(pending),
        _ => unreachable!(),
    }
}

/// Takes up a call at a table of any kind.
fn resume_here<T, K: Stopping<T>, A: Allocator>(
    table: &SharedTable<T, K, A>,
    seat: Seat<Option<T>, CallState<T>>,
    left: Left<T, usize>,
) -> Outcome<T, A>
    requires stands { (v : SpecBegun T) × StopsHere K.layout table.now.table.shared.table_id seat left v }
    ensures { (v : SpecBegun T) → StopsHere K.layout table.now.table.shared.table_id seat left v → Comes v.party v.call result }
{
    let mut kept = None;
    let ended = go_on_here(table, seat, left, &mut kept);
    outcome_of(ended, kept)
}

/// The same in a chain.
fn resume_inside<T, A: NullTestable>(
    queue: &AllocatedChain<T, A>,
    asking: Asking<T, A, Granting>,
    left: Left<T, Place<T>>,
) -> Outcome<T, A>
    requires stands { (v : SpecBegun T) × StopsInside queue.now.chain asking left v }
    ensures { (v : SpecBegun T) → StopsInside queue.now.chain asking left v → Comes v.party v.call result }
{
    let mut kept = None;
    let ended = go_on_inside(queue, asking, left, &mut kept);
    outcome_of(ended, kept)
}

impl<T, A: NullTestable> ConcurrentQueue<T, A> {
    /// Begins a call, which takes steps until its reply or until it has met another call half done. It never waits.
    pub fn begin(&self, party: Party<T>, call: Call<T>) -> Outcome<T, A>
        requires is_party { IsPartyOf party self.now }
        ensures { Comes party call result }
    {
        let mut kept = None;
        let ended = self.begin_into::<Begins>(party, call, &mut kept);
        outcome_of(ended, kept)
    }

    /// The same, in place where it is called: its party after the call, and its reply; or none, and the call is kept. `W` tells the calls apart, so that each has
    /// fast steps of its own.
    #[inline(always)]
    pub fn begin_into<W>(
        &self,
        party: Party<T>,
        call: Call<T>,
        kept: &mut Option<Pending<T, A>>,
    ) -> Option<(Party<T>, Reply<T>)>
        requires is_party { IsPartyOf party self.now }
        requires none { kept.old ≡ None }
        ensures { ComesInto party call result kept.new }
    {
        match self.form.seated(party.place) {
            Seated::Slot(table, seat) => {
                begin_here::<_, _, _, _, W>(OnSlot, table, seat, call, kept)
            }
            Seated::Ring(table, seat) => {
                begin_here::<_, _, _, _, W>(on_ring(table), table, seat, call, kept)
            }
            Seated::Chain(queue, rested) => begin_inside::<_, _, W>(queue, rested, call, kept),
        }
    }

    /// Takes a call up where it stands. It never waits. On a chain of blocks the call may carry a block, whose allocator no name tells: so that has to be one of
    /// which there is one value.
    pub fn resume(&self, pending: Pending<T, A>) -> Outcome<T, A>
        requires is_party { IsPartyOf pending.party self.now }
        requires heap { self.now.cap ≡ None → IsOneHeap A }
        ensures { Comes pending.party pending.call result }
    {
        match self.standing(pending) {
            Standing::Slot(table, seat, left) => resume_here(table, seat, left),
            Standing::Ring(table, seat, left) => resume_here(table, seat, left),
            Standing::Chain(queue, asking, left) => resume_inside(queue, asking, left),
        }
    }
}
