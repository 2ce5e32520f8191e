//! The items of a chain of blocks, read in their places.
ghost use Rattle.std.specs.Prelude.{◌≡◌, length};
ghost use Rattle.std.specs.Iterator.{at_most};
ghost use Rattle.std.specs.Map.Iter.{TakesFirst, deref};
ghost use Rattle.queue_steps.specs.Words.{position_of as spec_position_of};
ghost use Rattle.queue_steps.specs.ChainWords.{items_before as spec_items_before};

use crate::chain::own_chain::{Name, OwnChain};
use queue_steps::sizes::{BLOCK_POSITIONS, BLOCK_SLOTS};
use queue_steps::words::position_of;
use std::alloc::Allocator;
use std::marker::Model;

/// The items of a chain of blocks that are still to be read, the front first.
///
/// A contract sees their list.
#[derive(Drop)]
pub struct Items<'a, T, A: Allocator> {
    blocks: &'a OwnChain<T, A>,
    /// The block of the next item, if there is one.
    block: Option<Name<T>>,
    /// The slot of the next item.
    slot: u64,
    /// How many items are still to be read.
    left: u64,
}

impl<'a, T, A: Allocator> Model for Items<'a, T, A> {
    ghost use Rattle.std.specs.Prelude.{List};
    ghost use Rattle.own_cells.specs.OneChain.ItemsLeft.{Reads, items_left};

    ghost Value = { List T };

    ghost view = { λ i. items_left i.blocks.now i.left };

    ghost invariant = { λ i. Reads i.blocks.now i.block i.slot i.left };
}

/// How many items are before the position of a word.
fn items_before(word: u64) -> u64
    ensures { result ≡ spec_items_before (spec_position_of word) }
{
    let position = position_of(word);
    position / BLOCK_POSITIONS * BLOCK_SLOTS + position % BLOCK_POSITIONS
}

impl<T, A: Allocator> OwnChain<T, A> {
    ghost use Rattle.std.specs.Prelude.{Some};
    ghost use Rattle.own_cells.specs.OneChain.OwnChainCells.{CanTake, CanFollow, piece_of, item_in};
    ghost use Rattle.own_cells.specs.OneChain.OwnChainOwned.{IsIdle, own_chain_queue};

    /// The item in a full slot.
    fn item(&self, block: Name<T>, slot: usize) -> &T
        requires { CanTake self.now (Some block) slot }
        ensures { item_in (piece_of self.now block) slot ≡ Some result.now }
    {
        self.chain.get(block.number, block.link, slot).get()
    }

    /// The block behind this one: the last block has none.
    #[inline(always)]
    pub(crate) fn next(&self, block: Name<T>) -> Option<Name<T>>
        requires { CanFollow self.now block }
        ensures { result ≡ (piece_of self.now block).next }
    {
        match self.tail_block {
            Some(last) => {
                if last.number == block.number {
                    return None;
                }
                Some(Name {
                    number: block.number + 1,
                    link: self.chain.next(block.number, block.link),
                })
            }
            None => unreachable!(),
        }
    }

    /// The items, the front first.
    pub fn items(&self) -> Items<'_, T, A>
        requires { IsIdle self.now }
        ensures { result ≡ (own_chain_queue self.now).items }
    {
        Items {
            blocks: self,
            block: self.head_block,
            slot: position_of(self.head) % BLOCK_POSITIONS,
            left: items_before(self.tail) - items_before(self.head),
        }
    }
}

impl<'a, T, A: Allocator> Iterator for Items<'a, T, A> {
    type Item = &'a T;

    ghost next_gives = { TakesFirst deref };

    ghost remaining = { λ items. at_most (length items) };

    fn next(&mut self) -> Option<&'a T> {
        if self.left == 0 {
            return None;
        }
        let Some(block) = self.block else {
            unreachable!()
        };
        let blocks = self.blocks;
        let item = blocks.item(block, self.slot as usize);
        self.left -= 1;
        self.slot += 1;
        if self.slot == BLOCK_SLOTS {
            self.slot = 0;
            self.block = blocks.next(block);
        }
        Some(item)
    }
}
