//! The blocks of an unbounded queue, as the machine has them.
ghost use Rattle.std.specs.Prelude.{◌≡◌, ◌<◌, ◌+◌, ◌≤◌, if◌then◌else◌, ⊤, IfOk, IsSome, None, Some, is_some, nat_lt, length, replicate, slice_index_or, slice_set, vec_len, vec_capacity};
ghost use Rattle.machine_memory.specs.Present.{present};
ghost use Rattle.machine_memory.specs.Blocks.{BlockState as Places, blank, fresh_block, block_of, place_count, state_of, item_of, behind, put_state, put_item, put_next, without};

use crate::same::{Same, all_same};
use queue_steps::sizes::BLOCK_SLOTS;
use std::alloc::{AllocError, Allocator};
use std::hash::{Hash, Hasher};
use std::marker::Model;
use std::mem;

/// A place of a block.
#[derive(Copy, Drop, PartialEq, Eq, Hash)]
pub struct BlockPlace<T> {
    /// The state of its slot.
    pub state: u64,
    /// What its slot holds.
    pub item: Option<T>,
}

impl<T: Copy> Clone for BlockPlace<T> {
    ghost is_clone = { λ x y. y ≡ x };

    ghost is_infallible = { λ _. ⊤ };

    fn clone(&self) -> Result<BlockPlace<T>, AllocError> {
        Ok(*self)
    }
}

/// A block: its places, which are one allocation, and the number of the block behind it.
#[derive(Drop)]
pub struct Block<T, A: Allocator> {
    places: Vec<BlockPlace<T>, A>,
    next: Option<usize>,
}

impl<T, A: Allocator> Model for Block<T, A> {
    ghost Value = { Places T };

    ghost view = { λ b. record { places = b.places.items; next = b.next } };
}

impl<T, A: Allocator> Block<T, A> {
    /// A block whose places nobody has touched, with none behind it.
    ///
    /// # Errors
    ///
    /// Where there is no memory.
    pub fn new(alloc: A) -> Result<Self, AllocError>
        ensures { IfOk result (λ b. b ≡ fresh_block) }
    {
        let mut places = Vec::with_capacity(alloc, BLOCK_SLOTS as usize)?;
        for _ in 0..BLOCK_SLOTS {
            places.push_reserved(BlockPlace {
                state: 0,
                item: None,
            });
        }
        Ok(Block { places, next: None })
    }

    /// The number of the block behind it.
    pub fn next(&self) -> Option<usize>
        ensures { result ≡ self.now.next }
    {
        self.next
    }

    /// Its places, in their order.
    pub fn into_places(self) -> Vec<BlockPlace<T>, A>
        ensures { result.items ≡ self.places }
    {
        self.places
    }

    /// How many places it has.
    fn len(&self) -> usize
        ensures { result ≡ length self.now.places }
    {
        self.places.len()
    }

    /// Puts a block behind it.
    fn set_next(&mut self, next: usize)
        ensures { self.new ≡ record self.old { next = Some next } }
    {
        self.next = Some(next);
    }

    /// The state of a slot.
    fn state(&self, slot: usize) -> u64
        requires { slot < length self.now.places }
        ensures { result ≡ (slice_index_or self.now.places slot blank).state }
    {
        self.places[slot].state
    }

    /// Writes the state of a slot.
    fn set_state(&mut self, slot: usize, state: u64)
        requires { slot < length self.old.places }
        ensures { self.new ≡ record self.old { places = slice_set self.old.places slot (record (slice_index_or self.old.places slot blank) { state = state }) } }
    {
        self.places[slot].state = state;
    }

    /// The slot holds the item, and what it held is handed out.
    fn replace(&mut self, slot: usize, item: Option<T>) -> Option<T>
        requires { slot < length self.old.places }
        ensures block { self.new ≡ record self.old { places = slice_set self.old.places slot (record (slice_index_or self.old.places slot blank) { item = item }) } }
        ensures before { result ≡ (slice_index_or self.old.places slot blank).item }
    {
        mem::replace(&mut self.places[slot].item, item)
    }
}

impl<T: Copy, A: Allocator> Block<T, A> {
    /// A copy of the block, with the same number behind it.
    ///
    /// # Errors
    ///
    /// Where there is no memory.
    fn copy(&self, alloc: A) -> Result<Self, AllocError>
        ensures { IfOk result (λ b. b ≡ self.now) }
    {
        Ok(Block {
            places: Vec::from_slice(alloc, &self.places)?,
            next: self.next,
        })
    }
}

impl<T: Same, A: Allocator> Same for Block<T, A> {
    fn same(&self, other: &Self) -> bool {
        self.next == other.next && all_same(&self.places, &other.places)
    }
}

impl<T: Hash, A: Allocator> Block<T, A> {
    /// Feeds the hasher with all that the block holds.
    fn feed<H: Hasher>(&self, state: &mut H) {
        self.next.hash(state);
        self.places.hash(state);
    }
}

/// A copy of the blocks, with room for one more.
///
/// # Errors
///
/// Where there is no memory.
pub fn copy<T: Copy, A: Allocator + Copy>(
    alloc: A,
    blocks: &Vec<Option<Block<T, A>>, A>,
) -> Result<Vec<Option<Block<T, A>>, A>, AllocError>
    ensures blocks { IfOk result (λ copies. copies.items ≡ blocks.now.items) }
    ensures room { IfOk result (λ copies. vec_len copies + 1 ≤ vec_capacity copies) }
{
    let mut copies = Vec::with_capacity(alloc, blocks.len() + 1)?;
    for number in 0..blocks.len() {
        copies.push_reserved(copy_one(alloc, &blocks[number])?);
    }
    Ok(copies)
}

/// A copy of a block, where there is one.
fn copy_one<T: Copy, A: Allocator>(
    alloc: A,
    block: &Option<Block<T, A>>,
) -> Result<Option<Block<T, A>>, AllocError>
    ensures { IfOk result (λ copy. copy ≡ block.now) }
{
    match block {
        Some(block) => Ok(Some(block.copy(alloc)?)),
        None => Ok(None),
    }
}

/// Feeds the hasher with all that the blocks hold.
pub fn feed<T: Hash, A: Allocator, H: Hasher>(blocks: &Vec<Option<Block<T, A>>, A>, state: &mut H) {
    for number in 0..blocks.len() {
        match &blocks[number] {
            Some(block) => block.feed(state),
            None => state.write_u8(0),
        }
    }
}

/// The state of a slot of the block of this number.
pub fn state<T, A: Allocator>(
    blocks: &Vec<Option<Block<T, A>>, A>,
    block: usize,
    slot: usize,
) -> u64
    requires { slot < place_count blocks.now.items block }
    ensures { result ≡ state_of blocks.now.items block slot }
{
    match &blocks[block] {
        Some(block) => block.state(slot),
        None => unreachable!(),
    }
}

/// Writes the state of a slot of the block of this number.
pub fn set_state<T, A: Allocator>(
    blocks: &mut Vec<Option<Block<T, A>>, A>,
    block: usize,
    slot: usize,
    state: u64,
)
    requires { slot < place_count blocks.old.items block }
    ensures blocks { blocks.new.items ≡ put_state blocks.old.items block slot state }
    ensures count { present blocks.new.items ≡ present blocks.old.items }
    ensures room { (vec_len blocks.new ≡ vec_len blocks.old) × (vec_capacity blocks.new ≡ vec_capacity blocks.old) }
{
    if let Some(block) = &mut blocks[block] {
        block.set_state(slot, state);
    }
}

/// The slot of the block of this number holds the item, and what it held is handed out.
pub fn replace<T, A: Allocator>(
    blocks: &mut Vec<Option<Block<T, A>>, A>,
    block: usize,
    slot: usize,
    item: Option<T>,
) -> Option<T>
    requires { slot < place_count blocks.old.items block }
    ensures blocks { blocks.new.items ≡ put_item blocks.old.items block slot item }
    ensures before { result ≡ item_of blocks.old.items block slot }
    ensures count { present blocks.new.items ≡ present blocks.old.items }
    ensures room { (vec_len blocks.new ≡ vec_len blocks.old) × (vec_capacity blocks.new ≡ vec_capacity blocks.old) }
{
    match &mut blocks[block] {
        Some(block) => block.replace(slot, item),
        None => unreachable!(),
    }
}

/// The number of the block behind that of this number.
pub fn next<T, A: Allocator>(blocks: &Vec<Option<Block<T, A>>, A>, block: usize) -> Option<usize>
    requires { IsSome (block_of blocks.now.items block) }
    ensures { result ≡ behind blocks.now.items block }
{
    match &blocks[block] {
        Some(block) => block.next(),
        None => unreachable!(),
    }
}

/// Puts a block behind that of this number.
pub fn set_next<T, A: Allocator>(
    blocks: &mut Vec<Option<Block<T, A>>, A>,
    block: usize,
    next: usize,
)
    requires { IsSome (block_of blocks.old.items block) }
    ensures blocks { blocks.new.items ≡ put_next blocks.old.items block (Some next) }
    ensures count { present blocks.new.items ≡ present blocks.old.items }
    ensures room { (vec_len blocks.new ≡ vec_len blocks.old) × (vec_capacity blocks.new ≡ vec_capacity blocks.old) }
{
    if let Some(block) = &mut blocks[block] {
        block.set_next(next);
    }
}

/// Gives the block of this number up, and tells whether there was one to be given up.
pub fn give_up<T: Drop, A: Allocator>(
    blocks: &mut Vec<Option<Block<T, A>>, A>,
    block: Option<usize>,
) -> bool
    ensures blocks { blocks.new.items ≡ without block blocks.old.items }
    ensures count { present blocks.old.items ≡ present blocks.new.items + (if result then 1 else 0) }
    ensures room { (vec_len blocks.new ≡ vec_len blocks.old) × (vec_capacity blocks.new ≡ vec_capacity blocks.old) }
{
    match block {
        Some(block) if block < blocks.len() => blocks[block].take().is_some(),
        _ => false,
    }
}

/// Whether the block of this number is there.
pub fn has_block<T, A: Allocator>(blocks: &Vec<Option<Block<T, A>>, A>, block: usize) -> bool
    ensures { result ≡ is_some (block_of blocks.now.items block) }
{
    block < blocks.len() && blocks[block].is_some()
}

/// Whether the block of this number has this slot.
pub fn has_slot<T, A: Allocator>(
    blocks: &Vec<Option<Block<T, A>>, A>,
    block: usize,
    slot: usize,
) -> bool
    ensures { result ≡ nat_lt slot (place_count blocks.now.items block) }
{
    if block >= blocks.len() {
        return false;
    }
    match &blocks[block] {
        Some(block) => slot < block.len(),
        None => false,
    }
}
