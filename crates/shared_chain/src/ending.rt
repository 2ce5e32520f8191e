//! How a shared chain ends: as a queue with one owner, or dropped.
ghost use Rattle.std.specs.Prelude.{◌≡◌, ◌+◌, ◌*◌, ◌<◌, ◌≤◌, not, None};
ghost use denote.RawPtr.{InBlock, Testable};
ghost use Rattle.mem_blocks.specs.Web.{block, Lives, HoldsWord, word_of, without};
ghost use Rattle.mem_blocks.specs.Laid.{head_of};
ghost use Rattle.mem_blocks.specs.Seats.{Sits};
ghost use Rattle.mem_blocks.specs.declared.hub.TheConstants.{TAIL as SPEC_TAIL, HEAD as SPEC_HEAD};
ghost use Rattle.queue_steps.specs.Effect.{after};
ghost use Rattle.queue_steps.specs.Legal.{IsShown};
ghost use Rattle.queue_steps.specs.Parties.{IsWhole};
ghost use Rattle.shared_parties.specs.Known.{view_of};
ghost use Rattle.shared_parties.specs.CallStates.{IsSeatAlone};
ghost use Rattle.queue_steps.specs.declared.sizes.TheConstants.{LIMIT};
ghost use Rattle.queue_steps.specs.Words.{position_of};
ghost use Rattle.queue_steps.specs.ChainWords.{offset_of as spec_offset_of, items_before as spec_items_before};
ghost use Rattle.own_cells.specs.OneChain.ChainMemory.{block_of as spec_block_of};
ghost use Rattle.own_cells.specs.OneChain.OwnChainOwned.{IsIdle, own_chain_owned};
ghost use Rattle.shared_chain.specs.Ending.{LeadsTo, IntoBlock};
ghost use Rattle.shared_chain.specs.Leftover.{SlotLeft, BlockLeft, BlocksLeft, SameBut, Emptied, is_held, any_held};

use crate::ends::ChainEnds;
use crate::rule::Chained;
use mem_blocks::chain::Chain;
use mem_blocks::hub::{HEAD, Hub, TAIL};
use mem_blocks::item::{Item, Place};
use mem_blocks::sizes::SLOTS;
use mem_blocks::web::{Seat, Web};
use own_cells::chain::own_chain::OwnChain;
use queue_steps::sizes::{BLOCK_POSITIONS, BLOCK_SLOTS};
use queue_steps::steps::{READ, WRITE};
use queue_steps::words::position_of;
use shared_parties::known::CallState;
use std::alloc::Allocator;

/// The number in the web of the chain's first block: the two ends stand before it.
const FIRST_BLOCK: u64 = 2;

/// What stood in the two ends: the words of the head and of the tail, and the links to the poppers' block and to the pushers'.
struct Rest<T> {
    head: u64,
    tail: u64,
    front: Option<Place<T>>,
    back: Option<Place<T>>,
}

/// Takes the ends out of a chain that nobody shares any more, and gives their memory back.
fn take_ends<T, A: Allocator>(
    alloc: &A,
    chain: &mut Chain<Item<T>, A>,
    hub: Hub<Item<T>, A>,
    tail: Place<T>,
    head: Place<T>,
) -> Rest<T>
    requires heap { (chain.old.heap ≡ alloc.now) × (hub.heap ≡ alloc.now) }
    requires ends { InBlock tail.ptr × (hub.at ≡ tail.ptr) × (head.ptr ≡ head_of tail.ptr) }
    requires lives { HoldsWord chain.old.blocks 0 tail.ptr SPEC_TAIL × HoldsWord chain.old.blocks 1 head.ptr SPEC_HEAD }
    requires tested { Testable (block chain.old.blocks 0).next × Testable (block chain.old.blocks 1).next }
    ensures chain { (chain.new.heap ≡ chain.old.heap) × (chain.new.blocks ≡ without (without chain.old.blocks 0) 1) }
    ensures words { (result.tail ≡ word_of chain.old.blocks 0 SPEC_TAIL) × (result.head ≡ word_of chain.old.blocks 1 SPEC_HEAD) }
    ensures back { LeadsTo result.back (block chain.old.blocks 0).next × IntoBlock result.back }
    ensures front { LeadsTo result.front (block chain.old.blocks 1).next × IntoBlock result.front }
{
    let rest = Rest {
        head: chain.word(1, head, HEAD),
        tail: chain.word(0, tail, TAIL),
        front: chain.next(1, head).get(),
        back: chain.next(0, tail).get(),
    };
    let tail_end = chain.lift(0, tail);
    let head_end = chain.lift(1, head);
    hub.give_up(alloc, tail, tail_end, head_end);
    rest
}

/// What is left when the only party ends the queue: a queue with one owner, in the same blocks. It makes no request.
pub(crate) fn end<T, A: Allocator>(
    alloc: A,
    web: Web<Item<T>, CallState<T>, ChainEnds<T>, Chained, A>,
    seat: Seat<Item<T>, CallState<T>, A>,
    hub: Hub<Item<T>, A>,
    tail: Place<T>,
    head: Place<T>,
) -> OwnChain<T, A>
    requires seat { Sits seat web }
    requires heap { (web.heap ≡ alloc) × (hub.heap ≡ alloc) }
    requires ends { (tail.ptr ≡ web.key.tail.ptr) × (head.ptr ≡ web.key.head.ptr) }
    requires hub { InBlock tail.ptr × (hub.at ≡ tail.ptr) × (head.ptr ≡ head_of tail.ptr) }
    requires alone { IsSeatAlone seat.sitter.view }
    ensures { IsIdle result × IsShown (own_chain_owned result).queue (after None seat.sitter.view.known.seen) × IsWhole (view_of seat.sitter.view.known) }
{
    let mut chain = seat.finish(web);
    let Rest {
        head,
        tail,
        front,
        back,
    } = take_ends(&alloc, &mut chain, hub, tail, head);
    chain.forget();
    OwnChain::of_chain(alloc, chain, head, tail, front, back)
}

/// Drops the items that are left when no party is there any more, and gives the memory back.
///
/// A call that never ended keeps what it had: an item that it was to write or to read is lost, and so is the memory of that
/// item's block. Where such a call was moving the head over a block's end, all blocks are lost with it.
pub(crate) fn give_up<T: Drop, A: Allocator>(
    alloc: &A,
    web: Web<Item<T>, CallState<T>, ChainEnds<T>, Chained, A>,
    hub: Hub<Item<T>, A>,
    tail: Place<T>,
    head: Place<T>,
)
    requires heap { (web.heap ≡ alloc.now) × (hub.heap ≡ alloc.now) }
    requires ends { (tail.ptr ≡ web.key.tail.ptr) × (head.ptr ≡ web.key.head.ptr) }
    requires hub { InBlock tail.ptr × (hub.at ≡ tail.ptr) × (head.ptr ≡ head_of tail.ptr) }
{
    let mut chain = web.close();
    let Rest {
        head,
        tail,
        front,
        back: _,
    } = take_ends(alloc, &mut chain, hub, tail, head);
    match front {
        Some(front) => {
            if offset_of(head) != BLOCK_SLOTS {
                give_up_blocks(alloc, &mut chain, head, tail, front);
            }
        }
        None => {}
    }
    chain.leave();
}

/// The number of the block that a word's position is in.
#[inline(always)]
fn block_of(word: u64) -> u64
    ensures { result ≡ spec_block_of word }
{
    position_of(word) / BLOCK_POSITIONS
}

/// The offset of a word's position in its block.
#[inline(always)]
fn offset_of(word: u64) -> u64
    ensures { result ≡ spec_offset_of word }
{
    position_of(word) % BLOCK_POSITIONS
}

/// How many items stand before a word's position.
#[inline(always)]
fn items_before(word: u64) -> u64
    ensures { result ≡ spec_items_before (position_of word) }
{
    block_of(word) * BLOCK_SLOTS + offset_of(word)
}

/// Empties the blocks from the front's on, as far as they are linked, and gives up each that is empty then.
fn give_up_blocks<T: Drop, A: Allocator>(
    alloc: &A,
    chain: &mut Chain<Item<T>, A>,
    head: u64,
    tail: u64,
    front: Place<T>,
)
    requires heap { chain.old.heap ≡ alloc.now }
    requires left { BlocksLeft (spec_items_before (position_of head)) (spec_items_before (position_of tail)) (spec_block_of head) chain.old.blocks }
    requires front { InBlock front.ptr × Lives chain.old.blocks (spec_block_of head + 2) front.ptr }
{
    let taken = items_before(head);
    let accepted = items_before(tail);
    let mut block = block_of(head);
    let mut here = Some(front);
    while let Some(link) = here {
        let number = block + FIRST_BLOCK;
        let vacated = empty_block(chain, number, link, block * BLOCK_SLOTS, taken, accepted);
        here = chain.next(number, link).get();
        if vacated {
            chain.lift(number, link).give_up(alloc, link);
        }
        block += 1;
    }
}

/// Drops the items of a block, whose first slot is that of the item `first`, and tells whether all its slots are empty then.
fn empty_block<T: Drop, A: Allocator>(
    chain: &mut Chain<Item<T>, A>,
    number: u64,
    link: Place<T>,
    first: u64,
    taken: u64,
    accepted: u64,
) -> bool
    requires place { InBlock link.ptr × Lives chain.old.blocks number link.ptr }
    requires left { BlockLeft taken accepted first (block chain.old.blocks number) }
    requires small { first ≤ 2 * LIMIT }
    ensures chain { (chain.new.heap ≡ chain.old.heap) × SameBut number chain.old.blocks chain.new.blocks }
    ensures emptied { Emptied (λ j. j < SLOTS) result (block chain.old.blocks number) (block chain.new.blocks number) }
    ensures told { result ≡ not (any_held taken accepted first SLOTS (block chain.old.blocks number)) }
{
    let mut empty = true;
    for slot in 0..SLOTS {
        let item = first + slot as u64;
        let vacated = empty_slot(chain, number, link, slot, item, taken, accepted);
        empty = empty && vacated;
    }
    empty
}

/// Drops what is in the slot of an item, and tells whether the slot is empty then: it is not where a call that never ended has it.
fn empty_slot<T: Drop, A: Allocator>(
    chain: &mut Chain<Item<T>, A>,
    number: u64,
    link: Place<T>,
    slot: usize,
    item: u64,
    taken: u64,
    accepted: u64,
) -> bool
    requires place { InBlock link.ptr × HoldsWord chain.old.blocks number link.ptr slot × (slot < SLOTS) }
    requires left { SlotLeft taken accepted item slot (block chain.old.blocks number) }
    ensures chain { (chain.new.heap ≡ chain.old.heap) × SameBut number chain.old.blocks chain.new.blocks }
    ensures emptied { Emptied (λ j. j ≡ slot) result (block chain.old.blocks number) (block chain.new.blocks number) }
    ensures told { result ≡ not (is_held taken accepted item slot (block chain.old.blocks number)) }
{
    let word = chain.word(number, link, slot);
    if item < taken {
        return word & READ != 0;
    }
    if word & WRITE != 0 {
        drop(chain.take(number, link, slot));
        return true;
    }
    accepted <= item
}
