// How a web ends, and what a seat does without a step.
ghost use Rattle.std.specs.Prelude.{◌≡◌, ℕ, true, List, Some, None};
ghost use denote.RawPtr.{Ptr, InBlock};
ghost use Rattle.mem_blocks.specs.Web.{Home, sitter, alive_at, LastBlocks, LastBlocksBy};
ghost use Rattle.mem_blocks.specs.Seats.{Sits, Same};

use crate::block::{Block, BlockPtr, Loose};
use crate::chain::Chain;
use crate::web::{Rested, Seat, Web, WebRule};
use std::alloc::Allocator;
use std::marker::PhantomData;

impl<S, V, K, P: WebRule<S, V, K>, A: Allocator> Web<S, V, K, P, A> {
    /// Ends the sharing. A slot or a block that is out with a seat does not come back.
    #[inline(always)]
    pub fn close(self) -> Chain<S, A>
        ensures { (result.heap ≡ self.heap) × LastBlocks (P.holds self.key) result.blocks }
    {
        let Web { marker: _ } = self;
        Chain {
            marker: PhantomData,
        }
    }
}

impl<S, V, A: Allocator> Seat<S, V, A> {
    /// Ends the sharing, and tells that the seat's view was among the last views.
    #[inline(always)]
    pub fn finish<K, P: WebRule<S, V, K>>(self, web: Web<S, V, K, P, A>) -> Chain<S, A>
        requires { Sits self web }
        ensures { (result.heap ≡ web.heap) × LastBlocksBy (P.holds web.key) self.id self.sitter.view result.blocks }
    {
        let Self { marker: _ } = self;
        let Web { marker: _ } = web;
        Chain {
            marker: PhantomData,
        }
    }

    /// The view alone.
    #[inline(always)]
    pub fn rests(self) -> Rested<V>
        requires { (self.sitter.hand ≡ None) × (self.sitter.spare ≡ None) }
        ensures { (result.asleep ≡ true) × (result.web ≡ self.web) × (result.id ≡ self.id) × (result.view ≡ self.sitter.view) }
    {
        let Self { marker: _ } = self;
        Rested {
            marker: PhantomData,
        }
    }

    /// Gives the seat up, with what it has in hand and carries. Its view stays among the views.
    #[inline(always)]
    pub fn leave(self) {
        let Self { marker: _ } = self;
    }

    /// Carries the block, so that a step can lay it.
    #[inline(always)]
    pub fn hold(&mut self, loose: Loose<S, A>)
        requires { (loose.heap ≡ self.old.heap) × (self.old.sitter.spare ≡ None) }
        ensures same { Same self.new self.old }
        ensures held { self.new.sitter ≡ sitter self.old.sitter.view self.old.sitter.hand (Some (alive_at loose.at loose.next loose.words loose.homes)) }
    {
        let Loose { marker: _ } = loose;
    }

    /// The block that the seat carries.
    #[inline(always)]
    pub fn release(&mut self) -> Loose<S, A>
        requires { (x : Ptr × Ptr × List ℕ × List (Home S)) × (self.old.sitter.spare ≡ Some (alive_at x.0 x.1 x.2 x.3)) }
        ensures seat { Same self.new self.old × (self.new.sitter ≡ sitter self.old.sitter.view self.old.sitter.hand None) }
        ensures block { (result.heap ≡ self.old.heap) × (self.old.sitter.spare ≡ Some (alive_at result.at result.next result.words result.homes)) }
    {
        Loose {
            marker: PhantomData,
        }
    }

    /// A plain write into the empty slot that the seat has in hand.
    #[inline(always)]
    pub fn put(&mut self, link: BlockPtr<S>, slot: usize, value: S)
        requires { InBlock link.ptr × (self.old.sitter.hand ≡ Some (link.ptr, slot, None)) }
        ensures same { Same self.new self.old }
        ensures slot { self.new.sitter ≡ sitter self.old.sitter.view (Some (link.ptr, slot, Some value)) self.old.sitter.spare }
    {
        unsafe {
            (&raw mut (*(link.ptr as *mut Block<S>)).slots as *mut S)
                .add(slot)
                .write(value)
        }
    }

    /// A plain read of the full slot that the seat has in hand, which is empty then.
    #[inline(always)]
    pub fn take(&mut self, link: BlockPtr<S>, slot: usize) -> S
        requires { InBlock link.ptr × ((x : S) × (self.old.sitter.hand ≡ Some (link.ptr, slot, Some x))) }
        ensures same { Same self.new self.old }
        ensures slot { (self.old.sitter.hand ≡ Some (link.ptr, slot, Some result)) × (self.new.sitter ≡ sitter self.old.sitter.view (Some (link.ptr, slot, None)) self.old.sitter.spare) }
    {
        unsafe {
            (&raw mut (*(link.ptr as *mut Block<S>)).slots as *mut S)
                .add(slot)
                .read()
        }
    }
}
