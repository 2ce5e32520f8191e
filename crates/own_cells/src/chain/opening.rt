// How a chain of blocks begins, and how it ends.
ghost use Rattle.std.specs.Prelude.{◌≡◌, ◌≤◌, IfOk};
ghost use Rattle.queue_steps.specs.Sequential.{fresh};
ghost use Rattle.queue_steps.specs.State.{start};
ghost use Rattle.queue_steps.specs.declared.sizes.TheConstants.{LIMIT};
ghost use Rattle.own_cells.specs.OneChain.ChainMemory.{block_of as spec_block_of};

use crate::chain::own_chain::{Name, OwnChain};
use mem_blocks::block::Loose;
use mem_blocks::chain::Chain;
use mem_blocks::item::{Item, Place};
use queue_steps::sizes::{BLOCK_POSITIONS, BLOCK_SLOTS};
use queue_steps::steps::{READ, TAIL_STEP, WRITE};
use queue_steps::words::position_of;
use std::alloc::{AllocError, Allocator};

/// The number of the block that a word's position is in, of all blocks that were ever laid.
#[inline(always)]
fn block_of(word: u64) -> u64
    ensures { result ≡ spec_block_of word }
{
    position_of(word) / BLOCK_POSITIONS
}

impl<T, A: Allocator> OwnChain<T, A> {
    ghost use Rattle.std.specs.Prelude.{None, []};
    ghost use Rattle.own_cells.specs.OneChain.OwnChainOwned.{IsIdle, own_chain_owned, own_chain_queue};
    ghost use Rattle.own_cells.specs.OneChain.ChainMemory.{AreHeld, own_chain_in};

    /// A chain without blocks.
    pub fn new(alloc: A) -> Self
        ensures idle { IsIdle result }
        ensures empty { own_chain_owned result ≡ fresh None }
    {
        let chain = Chain::empty(&alloc);
        OwnChain {
            alloc,
            chain,
            head: 0,
            tail: 0,
            head_block: None,
            tail_block: None,
            spare: None,
            laid: 0,
            held: 0,
        }
    }

    /// A chain of one block, whose positions stand as after `accepted` items that were accepted and taken.
    ///
    /// # Errors
    ///
    /// Where there is no memory.
    pub fn after(alloc: A, accepted: u64) -> Result<Self, AllocError>
        requires { accepted ≤ LIMIT }
        ensures idle { IfOk result (λ own_chain. IsIdle own_chain) }
        ensures empty { IfOk result (λ own_chain. own_chain_owned own_chain ≡ record { queue = start None accepted; blocks = 1 }) }
    {
        let (link, block) = Loose::make(&alloc)?;
        let mut chain = Chain::empty(&alloc);
        chain.lay(block);
        let offset = accepted % BLOCK_SLOTS;
        for slot in 0..offset as usize {
            chain.set_word(0, link, slot, WRITE | READ);
        }
        let word = (accepted / BLOCK_SLOTS * BLOCK_POSITIONS + offset) * TAIL_STEP;
        let name = Name { number: 0, link };
        Ok(OwnChain {
            alloc,
            chain,
            head: word,
            tail: word,
            head_block: Some(name),
            tail_block: Some(name),
            spare: None,
            laid: 1,
            held: 1,
        })
    }

    /// A chain that is no longer shared, whose blocks are those from the front's to the one where the next item goes:
    /// the words of its head and its tail, and the links to the first and the last of its blocks.
    pub fn of_chain(
        alloc: A,
        chain: Chain<Item<T>, A>,
        head: u64,
        tail: u64,
        front: Option<Place<T>>,
        back: Option<Place<T>>,
    ) -> Self
        requires heap { chain.heap ≡ alloc }
        requires held { AreHeld chain.blocks }
        requires idle { IsIdle (own_chain_in head tail front back chain.blocks) }
        ensures { result ≡ own_chain_in head tail front back chain.blocks }
    {
        let held = match back {
            None => 0,
            Some(_) => block_of(tail) - block_of(head) + 1,
        };
        let head_block = match front {
            None => None,
            Some(link) => Some(Name { number: 0, link }),
        };
        let tail_block = match back {
            None => None,
            Some(link) => Some(Name {
                number: held - 1,
                link,
            }),
        };
        OwnChain {
            alloc,
            chain,
            head,
            tail,
            head_block,
            tail_block,
            spare: None,
            laid: held,
            held,
        }
    }

    /// Gives the memory of a chain back that has no items.
    pub fn end(self)
        requires idle { IsIdle self }
        requires empty { (own_chain_queue self).items ≡ [] }
    {
        let OwnChain {
            alloc,
            mut chain,
            head: _,
            tail: _,
            head_block,
            tail_block: _,
            spare,
            laid: _,
            held: _,
        } = self;
        match spare {
            None => {}
            Some(_) => unreachable!(),
        }
        match head_block {
            None => {}
            Some(last) => chain
                .lift(last.number, last.link)
                .give_up(&alloc, last.link),
        }
        chain.leave();
    }
}
