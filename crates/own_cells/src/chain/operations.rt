// The operations on a chain of blocks: on its slots, its words and its links, and the request for a block.
ghost use Rattle.std.specs.Prelude.{◌≡◌};

use crate::chain::own_chain::{Name, OwnChain, Spare};
use mem_blocks::block::Loose;
use mem_blocks::item::Item;
use queue_steps::steps::{Answer, Link, Word};
use std::alloc::{AllocError, Allocator};

impl<T, A: Allocator> OwnChain<T, A> {
    ghost use Rattle.std.specs.Prelude.{Some, length};
    ghost use Rattle.queue_steps.specs.declared.steps.types.Answer.TheVariants.{Found, Linked, Done};
    ghost use Rattle.queue_steps.specs.declared.steps.types.Op.TheVariants.{Load, Or, LoadLink, StoreLink, Ask};
    ghost use Rattle.queue_steps.specs.declared.steps.types.Link.TheVariants.{Next};
    ghost use Rattle.queue_steps.specs.declared.steps.types.Word.TheVariants.{State, Tail};
    ghost use Rattle.own_cells.specs.OneChain.OwnChainCells.{CanPut, CanTake, CanLay, exchanged, laid, own_chain_can_perform, own_chain_performed, own_chain_asks};

    /// An item goes into an empty slot.
    #[inline(always)]
    pub(crate) fn put(&mut self, block: Name<T>, slot: usize, carried: &mut Option<T>)
        requires { CanPut self.old (Some block) slot }
        ensures { (self.new, carried.new) ≡ exchanged self.old (Some block) slot carried.old }
    {
        match carried.take() {
            Some(item) => self
                .chain
                .put(block.number, block.link, slot, Item::new(item)),
            None => {}
        }
    }

    /// An item goes out of a full slot.
    #[inline(always)]
    pub(crate) fn take(&mut self, block: Name<T>, slot: usize, carried: &mut Option<T>)
        requires { CanTake self.old (Some block) slot }
        ensures { (self.new, carried.new) ≡ exchanged self.old (Some block) slot carried.old }
    {
        let item = self.chain.take(block.number, block.link, slot);
        match carried.replace(item.into_inner()) {
            Some(other) => self
                .chain
                .put(block.number, block.link, slot, Item::new(other)),
            None => {}
        }
    }

    /// What a word holds.
    #[inline(always)]
    pub(crate) fn load(&mut self, word: Word<Name<T>>) -> u64
        requires { own_chain_can_perform self.old (Load word) }
        ensures { (Found result, self.new) ≡ own_chain_performed self.old (Load word) }
    {
        match word {
            Word::Tail => self.tail,
            Word::Head => self.head,
            Word::State(block, slot) => self.chain.word(block.number, block.link, slot),
            _ => unreachable!(),
        }
    }

    /// Sets bits of the tail, and gives the tail before.
    #[inline(always)]
    pub(crate) fn mark(&mut self, bits: u64) -> u64
        ensures { (Found result, self.new) ≡ own_chain_performed self.old (Or Tail bits) }
    {
        let found = self.tail;
        self.tail = found | bits;
        found
    }

    /// Sets bits of a slot's state, and gives the state before.
    #[inline(always)]
    pub(crate) fn set_bits(&mut self, block: Name<T>, slot: usize, bits: u64) -> u64
        requires { own_chain_can_perform self.old (Or (State block slot) bits) }
        ensures { (Found result, self.new) ≡ own_chain_performed self.old (Or (State block slot) bits) }
    {
        let found = self.chain.word(block.number, block.link, slot);
        self.chain
            .set_word(block.number, block.link, slot, found | bits);
        found
    }

    /// Asks for a block.
    #[inline(always)]
    pub(crate) fn ask(&mut self) -> Answer<Name<T>>
        requires { own_chain_can_perform self.old Ask }
        ensures { own_chain_asks self.old result self.new }
    {
        match Loose::make(&self.alloc) {
            Ok((link, block)) => {
                let name = Name {
                    number: self.laid,
                    link,
                };
                match self.spare.replace(Spare { name, block }) {
                    None => Answer::Granted(name),
                    Some(_) => unreachable!(),
                }
            }
            Err(AllocError) => Answer::Refused,
        }
    }

    /// The block that was granted is laid at the end.
    #[inline(always)]
    pub(crate) fn lay(&mut self, block: Name<T>)
        requires { CanLay self.old block }
        ensures { self.new ≡ laid self.old block }
    {
        match self.spare.take() {
            Some(
                Spare {
                    name: _,
                    block: loose,
                },
            ) => {
                self.chain.lay(loose);
                self.tail_block = Some(block);
                self.laid += 1;
                self.held += 1;
            }
            None => unreachable!(),
        }
    }

    /// Links a block to the one behind it.
    #[inline(always)]
    fn link(&mut self, block: Name<T>, after: Name<T>)
        requires { own_chain_can_perform self.old (StoreLink (Next block) after) }
        ensures { (Done, self.new) ≡ own_chain_performed self.old (StoreLink (Next block) after) }
    {
        self.chain.set_next(block.number, block.link, after.link);
    }

    /// The block that a link leads to.
    #[inline(always)]
    pub(crate) fn load_link(&mut self, link: Link<Name<T>>) -> Option<Name<T>>
        requires { own_chain_can_perform self.old (LoadLink link) }
        ensures { (Linked result, self.new) ≡ own_chain_performed self.old (LoadLink link) }
    {
        match link {
            Link::HeadBlock => self.head_block,
            Link::TailBlock => self.tail_block,
            Link::Next(block) => self.next(block),
        }
    }

    /// The link leads to this block from then on.
    #[inline(always)]
    pub(crate) fn store_link(&mut self, link: Link<Name<T>>, block: Name<T>)
        requires { own_chain_can_perform self.old (StoreLink link block) }
        ensures { (Done, self.new) ≡ own_chain_performed self.old (StoreLink link block) }
    {
        match link {
            Link::HeadBlock => self.head_block = Some(block),
            Link::TailBlock => self.lay(block),
            Link::Next(before) => self.link(before, block),
        }
    }

    /// How many blocks are held.
    pub fn blocks(&self) -> usize
        ensures { result ≡ length self.now.pieces }
    {
        self.held as usize
    }
}
