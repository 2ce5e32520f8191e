//! A party's call that gives up where it would wait for another party's.
ghost use Rattle.std.specs.Prelude.{◌≡◌, ℕ, None};
ghost use Rattle.std.specs.ControlFlow.{MatchControlFlow};
ghost use Rattle.queue_steps.specs.declared.model.Call.TheVariants as calls;
ghost use Rattle.queue_steps.specs.declared.model.Reply.TheVariants as replies;
ghost use Rattle.queue_steps.specs.declared.steps.types.Next.{Next as SpecNext};
ghost use Rattle.queue_steps.specs.Kinds.{call_value};
ghost use Rattle.queue_laws.specs.Chain.ChainEarly.{IsPush};
ghost use Rattle.shared_parties.specs.Calling.{cap_of};
ghost use Rattle.shared_chain.specs.Turning.{web_of};
ghost use Rattle.shared_calls.specs.InWeb.{RestsAt, EndedAt};
ghost use Rattle.shared_calls.specs.Settling.{MayWait};
ghost use Rattle.shared_calls.specs.Trying.{SomeLeft, EndsOrQuits};

use crate::allocated_chain::AllocatedChain;
use crate::beginning::{FastSteps, OnChain};
use crate::chain::Asking;
use crate::left::Left;
use crate::pausing::{carry_on, settle};
use crate::quitting::{quit_at, quit_in};
use atomic_table::Seat;
use call_driver::gate::Open;
use call_driver::site::Site;
use mem_blocks::item::Place;
use mem_blocks::null_testable::NullTestable;
use mem_blocks::web::Rested;
use queue_steps::model::{Call, Reply};
use shared_chain::source::Granting;
use shared_parties::known::CallState;
use shared_tables::table::{SharedTable, TableSteps};
use std::alloc::Allocator;
use std::ops::ControlFlow;

/// Goes on with a call at a table that has left its fast steps, to its end or until it would wait. Where it gives up, what it carried comes back, and its party
/// is as if it had asked for the capacity.
#[cold]
#[inline(never)]
pub fn end_or_quit_at<T, K: TableSteps<T>, A: Allocator>(
    table: &SharedTable<T, K, A>,
    seat: &mut Seat<Option<T>, CallState<T>>,
    left: Left<T, usize>,
) -> ControlFlow<Reply<T>, Option<T>>
    requires left { SomeLeft ⟦<SharedTable<T, K, A> as Site>⟧ (λ c. Unit {0}) table.now left seat.old }
    requires ends { (todo : SpecNext ℕ) → ¬ (MayWait (K.layout table.now.table.shared.table_id.slots).calls.kind todo) }
    ensures { EndsOrQuits ⟦<SharedTable<T, K, A> as Site>⟧ (cap_of (K.layout table.now.table.shared.table_id.slots).calls) table.now left seat.old result seat.new }
{
    let left = match carry_on::<SharedTable<T, K, A>, Open>(table, &Open, seat, left) {
        ControlFlow::Break(answer) => return ControlFlow::Break(answer),
        ControlFlow::Continue(left) => left,
    };
    let left = match settle::<SharedTable<T, K, A>, Open>(table, &Open, seat, left) {
        ControlFlow::Break(answer) => return ControlFlow::Break(answer),
        ControlFlow::Continue(left) => left,
    };
    match quit_at(table, seat, left) {
        Ok(value) => ControlFlow::Continue(value),
        Err(_) => unreachable!(),
    }
}

/// The same of a push on a chain, by a seat in a call.
#[cold]
#[inline(never)]
fn end_or_quit_in<T, A: NullTestable>(
    queue: &AllocatedChain<T, A>,
    asking: &mut Asking<T, A, Granting>,
    left: Left<T, Place<T>>,
) -> ControlFlow<Reply<T>, Option<T>>
    requires left { SomeLeft ⟦<Asking<T, A, Granting> as Site>⟧ (λ c. IsPush c) queue.now left asking.old }
    ensures { EndsOrQuits ⟦<Asking<T, A, Granting> as Site>⟧ None queue.now left asking.old result asking.new }
{
    let left = match carry_on::<Asking<T, A, Granting>, Open>(queue, &Open, asking, left) {
        ControlFlow::Break(answer) => return ControlFlow::Break(answer),
        ControlFlow::Continue(left) => left,
    };
    queue.chain.look(&mut asking.seat);
    let left = match settle::<Asking<T, A, Granting>, Open>(queue, &Open, asking, left) {
        ControlFlow::Break(answer) => return ControlFlow::Break(answer),
        ControlFlow::Continue(left) => left,
    };
    match quit_in(queue, asking, left) {
        Ok(value) => ControlFlow::Continue(value),
        Err(_) => unreachable!(),
    }
}

/// The same in a place of its own, part by part, as `Left::apart`: so the place where a call's answer goes is never lent to a function that is not in place.
#[inline(always)]
pub fn retold<R, V>(told: ControlFlow<R, V>) -> ControlFlow<R, V>
    ensures { result ≡ told }
{
    match told {
        ControlFlow::Break(answer) => ControlFlow::Break(answer),
        ControlFlow::Continue(value) => ControlFlow::Continue(value),
    }
}

/// Makes a push on a chain. Where it gives up, what it carried comes back, and its party is as if it had asked for the capacity.
#[inline(always)]
pub fn attempt_in<T, A: NullTestable, W>(
    queue: &AllocatedChain<T, A>,
    party: &mut Rested<CallState<T>>,
    call: Call<T>,
) -> ControlFlow<Reply<T>, Option<T>>
    requires rests { RestsAt (web_of queue.now.chain) party.old }
    requires push { IsPush call }
    ensures { MatchControlFlow result (λ value. EndedAt party.old calls.Capacity (replies.Capacity None) party.new × (value ≡ call_value call)) (λ answer. EndedAt party.old call answer party.new) }
{
    let mut asking: Asking<T, A, Granting> = Asking::wake(&queue.chain, party);
    let begun = <OnChain as FastSteps<Asking<T, A, Granting>>>::run::<Open, W>(
        OnChain,
        queue,
        &Open,
        &mut asking,
        call,
    );
    let told = match begun {
        ControlFlow::Break(answer) => ControlFlow::Break(answer),
        ControlFlow::Continue(left) => retold(end_or_quit_in(queue, &mut asking, left.apart())),
    };
    *party = asking.rests();
    told
}
