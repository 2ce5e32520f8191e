// Blocks with one owner, which reads and writes them as plain memory.
ghost use Rattle.std.specs.Prelude.{◌≡◌, ℕ, List, [], ◌∷◌, ◌++◌, take, drop, None, Some};
ghost use base.Stored.{coded_list};
ghost use denote.RawPtr.{InBlock};
ghost use Rattle.mem_blocks.specs.Web.{Block, block_coded, block, alive_at, sitter, vacant, full, Lives, HoldsWord, Rests, word_of, with_word, with_next, with_home, without, AllGone};
ghost use Rattle.mem_blocks.specs.Laid.{chain_owns};
ghost use Rattle.mem_blocks.specs.Lent.{chain_lent};

use crate::block::{Block, BlockPtr, Loose};
use crate::web::{Seat, Web, WebRule};
use std::alloc::Allocator;
use std::marker::{Model, PhantomData};

/// A list of blocks, numbered in the order in which they were laid. It has no bytes, and takes no memory.
/// A block that is not lifted before the chain's end is never freed.
pub struct Chain<S, A: Allocator> {
    pub(crate) marker: PhantomData<(S, A)>,
    pub ghost heap: { A },
    pub ghost blocks: { List (Block S) } by { coded_list (block_coded S.code) },
}

impl<S, A: Allocator> Model for Chain<S, A> {
    ghost also_owns = { λ c. chain_owns S.row (A.dealloc_token c.heap) c.blocks };

    ghost also_shares = { λ c _ κ. chain_lent S.row c.blocks κ };
}

impl<S, A: Allocator> Chain<S, A> {
    /// A chain without blocks.
    #[inline(always)]
    pub fn empty(alloc: &A) -> Chain<S, A>
        ensures { (result.heap ≡ alloc.now) × (result.blocks ≡ []) }
    {
        let _ = alloc;
        Chain {
            marker: PhantomData,
        }
    }

    /// Gives the chain up, with the blocks that are still in it.
    #[inline(always)]
    pub fn leave(self) {
        let Self { marker: _ } = self;
    }

    /// Puts a block at the end.
    #[inline(always)]
    pub fn lay(&mut self, loose: Loose<S, A>)
        requires { loose.heap ≡ self.old.heap }
        ensures { (self.new.heap ≡ self.old.heap) × (self.new.blocks ≡ self.old.blocks ++ alive_at loose.at loose.next loose.words loose.homes ∷ []) }
    {
        let Loose { marker: _ } = loose;
    }

    /// Takes a block out.
    #[inline(always)]
    pub fn lift(&mut self, number: u64, link: BlockPtr<S>) -> Loose<S, A>
        requires { Lives self.old.blocks number link.ptr }
        ensures left { (self.new.heap ≡ self.old.heap) × (self.new.blocks ≡ without self.old.blocks number) }
        ensures taken { (result.heap ≡ self.old.heap) × (result.at ≡ link.ptr) × (result.next ≡ (block self.old.blocks number).next) × (result.words ≡ (block self.old.blocks number).words) × (result.homes ≡ (block self.old.blocks number).homes) }
    {
        Loose {
            marker: PhantomData,
        }
    }

    /// Forgets the first `count` blocks, which were all lifted, so that the next block is number 0.
    #[inline(always)]
    pub fn forget(&mut self)
        ghost count: { ℕ }
        requires { AllGone (take count self.old.blocks) }
        ensures { (self.new.heap ≡ self.old.heap) × (self.new.blocks ≡ drop count self.old.blocks) }
    {}

    /// Reads a word.
    #[inline(always)]
    pub fn word(&mut self, number: u64, link: BlockPtr<S>, word: usize) -> u64
        requires { InBlock link.ptr × HoldsWord self.old.blocks number link.ptr word }
        ensures { (self.new ≡ self.old) × (result ≡ word_of self.old.blocks number word) }
    {
        unsafe {
            (&raw const (*link.ptr).words as *const u64)
                .add(word)
                .read()
        }
    }

    /// Writes a word.
    #[inline(always)]
    pub fn set_word(&mut self, number: u64, link: BlockPtr<S>, word: usize, new: u64)
        requires { InBlock link.ptr × HoldsWord self.old.blocks number link.ptr word }
        ensures { (self.new.heap ≡ self.old.heap) × (self.new.blocks ≡ with_word self.old.blocks number word new) }
    {
        unsafe {
            (&raw mut (*link.ptr).words as *mut u64)
                .add(word)
                .write(new)
        }
    }

    /// Reads the link of a block.
    #[inline(always)]
    pub fn next(&self, number: u64, link: BlockPtr<S>) -> BlockPtr<S>
        requires { InBlock link.ptr × Lives self.now.blocks number link.ptr }
        ensures { result.ptr ≡ (block self.now.blocks number).next }
    {
        let ptr = unsafe { (*link.ptr).next };
        BlockPtr { ptr }
    }

    /// Sets the link of a block.
    #[inline(always)]
    pub fn set_next(&mut self, number: u64, link: BlockPtr<S>, new: BlockPtr<S>)
        requires { InBlock link.ptr × Lives self.old.blocks number link.ptr }
        ensures { (self.new.heap ≡ self.old.heap) × (self.new.blocks ≡ with_next self.old.blocks number new.ptr) }
    {
        unsafe {
            (*link.ptr).next = new.ptr;
        }
    }

    /// The value in a full slot.
    #[inline(always)]
    pub fn get(&self, number: u64, link: BlockPtr<S>, slot: usize) -> &S
        requires { InBlock link.ptr × Lives self.now.blocks number link.ptr × ((x : S) × Rests self.now.blocks number slot (Some x)) }
        ensures { Rests self.now.blocks number slot (Some result.now) }
    {
        unsafe { &*(&raw const (*(link.ptr as *const Block<S>)).slots as *const S).add(slot) }
    }

    /// Writes an empty slot.
    #[inline(always)]
    pub fn put(&mut self, number: u64, link: BlockPtr<S>, slot: usize, value: S)
        requires { InBlock link.ptr × Lives self.old.blocks number link.ptr × Rests self.old.blocks number slot None }
        ensures { (self.new.heap ≡ self.old.heap) × (self.new.blocks ≡ with_home self.old.blocks number slot (full value)) }
    {
        unsafe {
            (&raw mut (*(link.ptr as *mut Block<S>)).slots as *mut S)
                .add(slot)
                .write(value)
        }
    }

    /// Reads a full slot, which is empty then.
    #[inline(always)]
    pub fn take(&mut self, number: u64, link: BlockPtr<S>, slot: usize) -> S
        requires { InBlock link.ptr × Lives self.old.blocks number link.ptr × ((x : S) × Rests self.old.blocks number slot (Some x)) }
        ensures chain { (self.new.heap ≡ self.old.heap) × (self.new.blocks ≡ with_home self.old.blocks number slot vacant) }
        ensures value { Rests self.old.blocks number slot (Some result) }
    {
        unsafe {
            (&raw mut (*(link.ptr as *mut Block<S>)).slots as *mut S)
                .add(slot)
                .read()
        }
    }

    /// Shares the blocks under a rule that they keep. It takes no memory.
    #[inline(always)]
    pub fn share<V, K, P: WebRule<S, V, K>>(self, key: &K) -> (Web<S, V, K, P, A>, Seat<S, V, A>)
        requires { P.holds key.now record { blocks = self.blocks; views = P.first key.now ∷ [] } }
        ensures web { (result.0.key ≡ key.now) × (result.0.heap ≡ self.heap) }
        ensures seat { (result.1.web ≡ result.0.id) × (result.1.heap ≡ self.heap) × (result.1.id ≡ 0) × (result.1.sitter ≡ sitter (P.first key.now) None None) }
    {
        let _ = key;
        let Self { marker: _ } = self;
        (
            Web {
                marker: PhantomData,
            },
            Seat {
                marker: PhantomData,
            },
        )
    }
}

unsafe impl<S: Send, A: Allocator + Send> Send for Chain<S, A> {}

unsafe impl<S: Sync, A: Allocator> Sync for Chain<S, A> {}
