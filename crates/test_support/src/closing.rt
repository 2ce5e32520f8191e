// The calls of a party on a queue of which only the closing is modelled.
ghost use Rattle.std.specs.Prelude.{◌≡◌, true, false, None, IfOk};
ghost use denote.RawPtr.{InBlock};
ghost use Rattle.mem_blocks.specs.Web.{sitter};
ghost use Rattle.mem_blocks.specs.Laid.{head_of};
ghost use Rattle.mem_blocks.specs.Seats.{Sits, Same};
ghost use Rattle.test_support.specs.ClosingRule.{Closed, KeepsHand, Saw, newcomer, nothing};

use crate::closing_rule::{Closes, ClosingRule, Looks, Parts, QueueEnds, Returns, View};
use mem_blocks::block::BlockPtr;
use mem_blocks::chain::Chain;
use mem_blocks::hub::Hub;
use mem_blocks::web::{Seat, Web};
use std::alloc::{AllocError, Allocator};

/// An open queue, the right to free it, and the place of its tail and its head, with the whole party.
pub fn open<S, A: Allocator>(
    alloc: &A,
) -> Result<
    (
        Web<S, View, QueueEnds<S>, ClosingRule, A>,
        Seat<S, View, A>,
        Hub<S, A>,
        BlockPtr<S>,
        BlockPtr<S>,
    ),
    AllocError,
>
    ensures web { IfOk result (λ q. (q.0.heap ≡ alloc.now) × (q.0.key.tail.ptr ≡ q.3.ptr) × (q.0.key.head.ptr ≡ q.4.ptr)) }
    ensures seat { IfOk result (λ q. (q.1.web ≡ q.0.id) × (q.1.heap ≡ alloc.now) × (q.1.sitter ≡ sitter nothing None None)) }
    ensures hub { IfOk result (λ q. (q.2.heap ≡ alloc.now) × (q.2.at ≡ q.3.ptr) × InBlock q.3.ptr × (q.4.ptr ≡ head_of q.3.ptr)) }
{
    let (hub, tail, first, head, second) = Hub::make(alloc)?;
    let mut chain = Chain::empty(alloc);
    chain.lay(first);
    chain.lay(second);
    let ends = QueueEnds { tail, head };
    let (web, seat) = chain.share(&ends);
    Ok((web, seat, hub, tail, head))
}

/// Closes the queue. It answers whether this call did it.
pub fn close<S, A: Allocator>(
    web: &Web<S, View, QueueEnds<S>, ClosingRule, A>,
    seat: &mut Seat<S, View, A>,
    tail: BlockPtr<S>,
) -> bool
    requires { Sits seat.old web.now × InBlock tail.ptr × (tail.ptr ≡ web.now.key.tail.ptr) }
    ensures seat { Same seat.new seat.old }
    ensures kept { KeepsHand seat.old.sitter seat.new.sitter }
    ensures did { result ≡ true → Closed seat.old.sitter.view seat.new.sitter.view }
    ensures was { result ≡ false → Saw 1 seat.old.sitter.view seat.new.sitter.view }
{
    web.fetch_or::<Closes>(seat, tail, 0, 1) == 0
}

/// Whether the queue is closed.
pub fn is_closed<S, A: Allocator>(
    web: &Web<S, View, QueueEnds<S>, ClosingRule, A>,
    seat: &mut Seat<S, View, A>,
    tail: BlockPtr<S>,
) -> bool
    requires { Sits seat.old web.now × InBlock tail.ptr × (tail.ptr ≡ web.now.key.tail.ptr) }
    ensures seat { Same seat.new seat.old }
    ensures kept { KeepsHand seat.old.sitter seat.new.sitter }
    ensures closed { result ≡ true → Saw 1 seat.old.sitter.view seat.new.sitter.view }
    ensures open { result ≡ false → Saw 0 seat.old.sitter.view seat.new.sitter.view }
{
    web.load::<Looks>(seat, tail, 0) != 0
}

/// Cuts a party in two.
pub fn part<S, A: Allocator>(
    web: &Web<S, View, QueueEnds<S>, ClosingRule, A>,
    seat: &mut Seat<S, View, A>,
    tail: BlockPtr<S>,
) -> Seat<S, View, A>
    requires { Sits seat.old web.now × InBlock tail.ptr × (tail.ptr ≡ web.now.key.tail.ptr) }
    ensures old { Same seat.new seat.old × (seat.new.sitter.view ≡ seat.old.sitter.view) }
    ensures new { (result.web ≡ seat.old.web) × (result.heap ≡ seat.old.heap) × (result.sitter ≡ sitter (newcomer seat.old.sitter.view) None None) }
{
    web.split::<Parts>(seat, tail)
}

/// Takes a party back.
pub fn take_back<S, A: Allocator>(
    web: &Web<S, View, QueueEnds<S>, ClosingRule, A>,
    seat: &mut Seat<S, View, A>,
    other: Seat<S, View, A>,
    tail: BlockPtr<S>,
)
    requires { Sits seat.old web.now × Sits other web.now × (other.sitter.hand ≡ None) × (other.sitter.spare ≡ None) × InBlock tail.ptr × (tail.ptr ≡ web.now.key.tail.ptr) }
    ensures { Same seat.new seat.old × (seat.new.sitter.view ≡ seat.old.sitter.view) }
{
    web.join::<Returns>(seat, other, tail);
}

/// Ends the queue, and gives its memory back.
pub fn end<S, A: Allocator>(
    web: Web<S, View, QueueEnds<S>, ClosingRule, A>,
    seat: Seat<S, View, A>,
    hub: Hub<S, A>,
    alloc: &A,
    tail: BlockPtr<S>,
    head: BlockPtr<S>,
)
    requires web { (web.heap ≡ alloc.now) × (web.key.tail.ptr ≡ tail.ptr) × (web.key.head.ptr ≡ head.ptr) }
    requires seat { Sits seat web }
    requires hub { (hub.heap ≡ alloc.now) × (hub.at ≡ tail.ptr) × (head.ptr ≡ head_of tail.ptr) }
{
    let mut chain = seat.finish(web);
    let first = chain.lift(0, tail);
    let second = chain.lift(1, head);
    chain.leave();
    hub.give_up(alloc, tail, first, second);
}
