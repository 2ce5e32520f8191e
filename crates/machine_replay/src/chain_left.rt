//! The list that a chain of blocks holds at the end of a run: what its calls in progress have claimed is done first.
ghost use Rattle.std.specs.Prelude.{◌≡◌, ◌++◌, ◌+◌, ◌≤◌, Some, length, vec_len, vec_capacity};
ghost use Rattle.queue_steps.specs.ChainWords.{offset_of};
ghost use Rattle.machine_memory.specs.Blocks.{behind, put_state, put_item, put_next, without};
ghost use Rattle.machine_steps.specs.ChainLeft.{laid, marked, reached, settled_at, settled_by, settled_blocks, front_at, settled_front, unread_in, unread, unread_at, behind_at, chained, chain_left};

use machine_memory::blocks::{self, Block, BlockPlace};
use machine_memory::calls::Running;
use machine_memory::shared_memory::named_block;
use queue_steps::sizes::BLOCK_POSITIONS;
use queue_steps::steps::{ChainLocal, Local, READ, Touch};
use queue_steps::words::position_of;
use std::alloc::Allocator;

/// The slot of a word's position.
fn slot_of(word: u64) -> usize
    ensures { result ≡ offset_of word }
{
    (position_of(word) % BLOCK_POSITIONS) as usize
}

/// Puts an item into a slot, if it is there.
fn put<T: Drop, A: Allocator>(
    block: usize,
    slot: usize,
    item: Option<T>,
    blocks: &mut Vec<Option<Block<T, A>>, A>,
)
    ensures { blocks.new.items ≡ put_item blocks.old.items block slot item }
{
    if blocks::has_slot(blocks, block, slot) {
        blocks::replace(blocks, block, slot, item);
    }
}

/// Marks a slot as read, if it is there.
fn mark<T, A: Allocator>(block: usize, slot: usize, blocks: &mut Vec<Option<Block<T, A>>, A>)
    ensures { blocks.new.items ≡ marked block slot blocks.old.items }
{
    if blocks::has_slot(blocks, block, slot) {
        blocks::set_state(blocks, block, slot, READ);
    }
}

/// Puts a block behind another, if that is there.
fn link<T, A: Allocator>(block: usize, next: usize, blocks: &mut Vec<Option<Block<T, A>>, A>)
    ensures { blocks.new.items ≡ put_next blocks.old.items block (Some next) }
{
    if blocks::has_block(blocks, block) {
        blocks::set_next(blocks, block, next);
    }
}

/// What a push does that has claimed the last slot of a block.
fn lay<T: Drop, A: Allocator>(
    tail: u64,
    block: usize,
    fresh: usize,
    item: Option<T>,
    blocks: &mut Vec<Option<Block<T, A>>, A>,
)
    ensures { blocks.new.items ≡ laid tail block fresh item blocks.old.items }
{
    put(block, slot_of(tail), item, blocks);
    link(block, fresh, blocks);
}

/// What a call does whose next step touches a slot of this block.
fn reach<T: Drop, A: Allocator>(
    touch: Touch,
    block: Option<usize>,
    item: Option<T>,
    blocks: &mut Vec<Option<Block<T, A>>, A>,
)
    ensures { blocks.new.items ≡ reached touch block item blocks.old.items }
{
    match (touch, block) {
        (Touch::Put(slot), Some(block)) => put(block, slot, item, blocks),
        (Touch::Take(slot), Some(block)) => mark(block, slot, blocks),
        _ => {}
    }
}

/// What a call does that stands here.
fn settle_at<T: Drop, A: Allocator>(
    local: ChainLocal<usize>,
    touch: Touch,
    named: Option<usize>,
    item: Option<T>,
    blocks: &mut Vec<Option<Block<T, A>>, A>,
)
    ensures { blocks.new.items ≡ settled_at local touch named item blocks.old.items }
{
    match local {
        ChainLocal::Laying(_, tail, block, fresh) => lay(tail, block, fresh, item, blocks),
        ChainLocal::Opening(_, tail, block, fresh) => lay(tail, block, fresh, item, blocks),
        ChainLocal::Chaining(_, tail, block, fresh) => lay(tail, block, fresh, item, blocks),
        ChainLocal::Following(head, block) => mark(block, slot_of(head), blocks),
        ChainLocal::Peeking(head, block, _) => mark(block, slot_of(head), blocks),
        ChainLocal::Passing(head, block, _) => mark(block, slot_of(head), blocks),
        ChainLocal::Entering(head, block) => mark(block, slot_of(head), blocks),
        ChainLocal::Awaiting(head, block) => mark(block, slot_of(head), blocks),
        _ => reach(touch, named, item, blocks),
    }
}

/// What a call in progress does to the blocks.
fn settle_one<T: Drop, A: Allocator>(running: Running<T>, blocks: &mut Vec<Option<Block<T, A>>, A>)
    ensures { blocks.new.items ≡ settled_by running.local running.touch running.op running.carried blocks.old.items }
{
    let Running {
        local,
        touch,
        op,
        carried,
    } = running;
    if let Local::Chain(local) = local {
        settle_at(local, touch, named_block(op), carried, blocks);
    }
}

/// The poppers' block, once a call that stands here has shown the first one.
fn front(local: Local<usize>, front: Option<usize>) -> Option<usize>
    ensures { result ≡ front_at local front }
{
    match local {
        Local::Chain(ChainLocal::Showing(_, _, block)) => Some(block),
        _ => front,
    }
}

/// Takes the item of a place to the end of the list, unless it is read.
fn gather_place<T: Drop, A: Allocator>(place: BlockPlace<T>, left: &mut Vec<T, A>)
    requires { vec_len left.old + length (unread_in place) ≤ vec_capacity left.old }
    ensures left { left.new.items ≡ left.old.items ++ unread_in place }
    ensures room { vec_capacity left.new ≡ vec_capacity left.old }
{
    let BlockPlace { state, item } = place;
    if state & READ == 0 {
        if let Some(item) = item {
            left.push_reserved(item);
        }
    }
}

/// Takes the items of these places to the end of the list.
fn gather_places<T: Drop, A: Allocator>(places: Vec<BlockPlace<T>, A>, left: &mut Vec<T, A>)
    requires { vec_len left.old + length (unread places.items) ≤ vec_capacity left.old }
    ensures left { left.new.items ≡ left.old.items ++ unread places.items }
    ensures room { vec_capacity left.new ≡ vec_capacity left.old }
{
    for place in places {
        gather_place(place, left);
    }
}

/// Takes a block out, and its items to the end of the list. The block behind it is answered.
fn gather_block<T: Drop, A: Allocator>(
    at: Option<usize>,
    blocks: &mut Vec<Option<Block<T, A>>, A>,
    left: &mut Vec<T, A>,
) -> Option<usize>
    requires { vec_len left.old + length (unread_at blocks.old.items at) ≤ vec_capacity left.old }
    ensures behind { result ≡ behind_at blocks.old.items at }
    ensures blocks { blocks.new.items ≡ without at blocks.old.items }
    ensures left { left.new.items ≡ left.old.items ++ unread_at blocks.old.items at }
    ensures room { vec_capacity left.new ≡ vec_capacity left.old }
{
    let number = at?;
    if number >= blocks.len() {
        return None;
    }
    let block = blocks[number].take()?;
    let next = block.next();
    gather_places(block.into_places(), left);
    next
}

/// The items of this block and of those behind it.
fn gather_blocks<T: Drop, A: Allocator>(
    front: Option<usize>,
    mut blocks: Vec<Option<Block<T, A>>, A>,
    mut left: Vec<T, A>,
) -> Vec<T, A>
    requires empty { vec_len left ≡ 0 }
    requires room { length (chained (length blocks.items) blocks.items front) ≤ vec_capacity left }
    ensures { result.items ≡ chained (length blocks.items) blocks.items front }
{
    let mut at = front;
    for _ in 0..blocks.len() {
        at = gather_block(at, &mut blocks, &mut left);
    }
    left
}

/// The list that the blocks hold, with the items that are not yet written, and without those that are about to be read.
pub(crate) fn left<T: Drop, A: Allocator>(
    calls: Vec<Option<Running<T>>, A>,
    mut first: Option<usize>,
    mut blocks: Vec<Option<Block<T, A>>, A>,
    left: Vec<T, A>,
) -> Vec<T, A>
    requires empty { vec_len left ≡ 0 }
    requires room { length (chain_left calls.items first blocks.items) ≤ vec_capacity left }
    ensures { result.items ≡ chain_left calls.items first blocks.items }
{
    for call in calls {
        if let Some(running) = call {
            first = front(running.local, first);
            settle_one(running, &mut blocks);
        }
    }
    gather_blocks(first, blocks, left)
}
