// The atomic steps of a seat: each is one access to a word or to the link of a block.
ghost use Rattle.std.specs.Prelude.{◌≡◌, ◌+◌, ◌-◌, ◌%◌, ◌^◌, ◌<◌, ◌==◌, None, bit_or};
ghost use prog.Atomic.{either};
ghost use denote.RawPtr.{InBlock, Testable};
ghost use Rattle.mem_blocks.specs.Seats.{Sits, Same};
ghost use Rattle.mem_blocks.specs.Words.{becomes, answered, IsAnswered};
ghost use Rattle.mem_blocks.specs.Links.{leads_to, answered_place, IsAnsweredPlace};
ghost use Rattle.mem_blocks.specs.Web.{step, sitter, if_unset, StaysIn, Allows, AllowsLink, CanFork, CanMerge};

use crate::block::{BlockPtr, Node};
use crate::operation::{LinkOperation, Operation};
use crate::sizes::{END_WORDS, SLOTS};
use crate::web::{LinkPlay, Play, Seat, Web, WebRule};
use crate::word::operate;
use atomic_table::{Join, Split};
use std::alloc::Allocator;
use std::marker::{Brand, PhantomData};
use std::sync::atomic::Ordering::SeqCst;
use std::sync::atomic::raw;
use std::sync::atomic::raw::ptr;

impl<S, V, K, P: WebRule<S, V, K>, A: Allocator> Web<S, V, K, P, A> {
    // Does the operation on the word, and answers with the number that it tells.
    #[inline(always)]
    fn operate<M: Play<S, V>>(
        &self,
        seat: &mut Seat<S, V, A>,
        link: BlockPtr<S>,
        word: usize,
        operation: Operation,
        first: u64,
        second: u64,
    ) -> u64
        requires sits { Sits seat.old self.now }
        requires there { InBlock link.ptr × (word < SLOTS) }
        requires allows { Allows (P.holds self.now.key) seat.old.id seat.old.sitter link.ptr word (becomes operation first second) (λ n. M.then (step link.ptr word first second) seat.old.sitter (answered operation first n)) }
        ensures { Same seat.new seat.old × IsAnswered operation first result × M.then (step link.ptr word first second) seat.old.sitter result seat.new.sitter }
    {
        unsafe {
            operate::<Brand>(
                (&raw const (*link.ptr).words as *const u64).add(word),
                operation,
                first,
                second,
            )
        }
    }

    /// Reads a word. It answers with the word as it was.
    #[inline(always)]
    pub fn load<M: Play<S, V>>(
        &self,
        seat: &mut Seat<S, V, A>,
        link: BlockPtr<S>,
        word: usize,
    ) -> u64
        requires sits { Sits seat.old self.now }
        requires there { InBlock link.ptr × (word < SLOTS) }
        requires allows { Allows (P.holds self.now.key) seat.old.id seat.old.sitter link.ptr word (λ n. n) (M.then (step link.ptr word 0 0) seat.old.sitter) }
        ensures { Same seat.new seat.old × M.then (step link.ptr word 0 0) seat.old.sitter result seat.new.sitter }
    {
        self.operate::<M>(seat, link, word, Operation::Load, 0, 0)
    }

    /// Reads one of the first words of a block that never leaves the web. It needs no seat, and tells nothing of what it found.
    #[inline(always)]
    pub fn peek(&self, link: BlockPtr<S>, word: usize) -> u64
        requires there { InBlock link.ptr × (word < END_WORDS) }
        requires stays { StaysIn (P.holds self.now.key) link.ptr }
    {
        unsafe {
            raw::load::<Brand>(
                (&raw const (*link.ptr).words as *const u64).add(word),
                SeqCst,
            )
        }
    }

    /// Adds to a word, round the end of its range. It answers with the word as it was.
    #[inline(always)]
    pub fn fetch_add<M: Play<S, V>>(
        &self,
        seat: &mut Seat<S, V, A>,
        link: BlockPtr<S>,
        word: usize,
        k: u64,
    ) -> u64
        requires sits { Sits seat.old self.now }
        requires there { InBlock link.ptr × (word < SLOTS) }
        requires allows { Allows (P.holds self.now.key) seat.old.id seat.old.sitter link.ptr word (λ n. (n + k) % 2 ^ 64) (M.then (step link.ptr word k 0) seat.old.sitter) }
        ensures { Same seat.new seat.old × M.then (step link.ptr word k 0) seat.old.sitter result seat.new.sitter }
    {
        self.operate::<M>(seat, link, word, Operation::Add, k, 0)
    }

    /// Subtracts from a word, round the end of its range. It answers with the word as it was.
    #[inline(always)]
    pub fn fetch_sub<M: Play<S, V>>(
        &self,
        seat: &mut Seat<S, V, A>,
        link: BlockPtr<S>,
        word: usize,
        k: u64,
    ) -> u64
        requires sits { Sits seat.old self.now }
        requires there { InBlock link.ptr × (word < SLOTS) }
        requires allows { Allows (P.holds self.now.key) seat.old.id seat.old.sitter link.ptr word (λ n. (n + (2 ^ 64 - k)) % 2 ^ 64) (M.then (step link.ptr word k 0) seat.old.sitter) }
        ensures { Same seat.new seat.old × M.then (step link.ptr word k 0) seat.old.sitter result seat.new.sitter }
    {
        self.operate::<M>(seat, link, word, Operation::Subtract, k, 0)
    }

    /// Sets bits of a word. It answers with the word as it was.
    #[inline(always)]
    pub fn fetch_or<M: Play<S, V>>(
        &self,
        seat: &mut Seat<S, V, A>,
        link: BlockPtr<S>,
        word: usize,
        k: u64,
    ) -> u64
        requires sits { Sits seat.old self.now }
        requires there { InBlock link.ptr × (word < SLOTS) }
        requires allows { Allows (P.holds self.now.key) seat.old.id seat.old.sitter link.ptr word (λ n. bit_or n k) (M.then (step link.ptr word k 0) seat.old.sitter) }
        ensures { Same seat.new seat.old × M.then (step link.ptr word k 0) seat.old.sitter result seat.new.sitter }
    {
        self.operate::<M>(seat, link, word, Operation::Or, k, 0)
    }

    /// Writes a word.
    #[inline(always)]
    pub fn store<M: Play<S, V>>(
        &self,
        seat: &mut Seat<S, V, A>,
        link: BlockPtr<S>,
        word: usize,
        new: u64,
    )
        requires sits { Sits seat.old self.now }
        requires there { InBlock link.ptr × (word < SLOTS) }
        requires allows { Allows (P.holds self.now.key) seat.old.id seat.old.sitter link.ptr word (λ _. new) (λ _. M.then (step link.ptr word new 0) seat.old.sitter new) }
        ensures { Same seat.new seat.old × M.then (step link.ptr word new 0) seat.old.sitter new seat.new.sitter }
    {
        self.operate::<M>(seat, link, word, Operation::Store, new, 0);
    }

    /// Writes `new` where the word is `old`. It answers with the word as it was.
    #[inline(always)]
    pub fn exchange<M: Play<S, V>>(
        &self,
        seat: &mut Seat<S, V, A>,
        link: BlockPtr<S>,
        word: usize,
        old: u64,
        new: u64,
    ) -> u64
        requires sits { Sits seat.old self.now }
        requires there { InBlock link.ptr × (word < SLOTS) }
        requires allows { Allows (P.holds self.now.key) seat.old.id seat.old.sitter link.ptr word (λ n. either (n == old) new n) (M.then (step link.ptr word old new) seat.old.sitter) }
        ensures { Same seat.new seat.old × M.then (step link.ptr word old new) seat.old.sitter result seat.new.sitter }
    {
        self.operate::<M>(seat, link, word, Operation::Exchange, old, new)
    }

    // Does the operation on the link, and answers with the place that it tells.
    #[inline(always)]
    fn operate_link<M: LinkPlay<S, V>>(
        &self,
        seat: &mut Seat<S, V, A>,
        link: BlockPtr<S>,
        operation: LinkOperation,
        new: BlockPtr<S>,
    ) -> BlockPtr<S>
        requires sits { Sits seat.old self.now }
        requires there { InBlock link.ptr }
        requires allows { AllowsLink (P.holds self.now.key) seat.old.id seat.old.sitter link.ptr (leads_to operation new.ptr) (λ q. M.then seat.old.sitter (answered_place operation new.ptr q)) }
        ensures { Same seat.new seat.old × IsAnsweredPlace operation new.ptr result.ptr × M.then seat.old.sitter result.ptr seat.new.sitter }
    {
        let place = unsafe { &raw const (*link.ptr).next as *const *mut u64 };
        let operand = new.ptr as *mut u64;
        let found = match operation {
            LinkOperation::Load => unsafe { ptr::load::<u64, Brand>(place, SeqCst) },
            LinkOperation::Store => {
                unsafe { ptr::store::<u64, Brand>(place, operand, SeqCst) };
                operand
            }
            LinkOperation::Install => {
                match unsafe {
                    ptr::compare_exchange::<u64, Brand>(
                        place,
                        std::ptr::null_mut(),
                        operand,
                        SeqCst,
                        SeqCst,
                    )
                } {
                    Ok(found) => found,
                    Err(found) => found,
                }
            }
        };
        BlockPtr {
            ptr: found as *mut Node<S>,
        }
    }

    /// Reads the link of a block.
    #[inline(always)]
    pub fn follow<M: LinkPlay<S, V>>(
        &self,
        seat: &mut Seat<S, V, A>,
        link: BlockPtr<S>,
    ) -> BlockPtr<S>
        requires sits { Sits seat.old self.now }
        requires there { InBlock link.ptr }
        requires allows { AllowsLink (P.holds self.now.key) seat.old.id seat.old.sitter link.ptr (λ q. q) (M.then seat.old.sitter) }
        ensures { Same seat.new seat.old × Testable result.ptr × M.then seat.old.sitter result.ptr seat.new.sitter }
    {
        self.operate_link::<M>(seat, link, LinkOperation::Load, link)
    }

    /// Sets the link of a block.
    #[inline(always)]
    pub fn lead<M: LinkPlay<S, V>>(
        &self,
        seat: &mut Seat<S, V, A>,
        link: BlockPtr<S>,
        new: BlockPtr<S>,
    )
        requires sits { Sits seat.old self.now }
        requires there { InBlock link.ptr }
        requires allows { AllowsLink (P.holds self.now.key) seat.old.id seat.old.sitter link.ptr (λ _. new.ptr) (λ _. M.then seat.old.sitter new.ptr) }
        ensures { Same seat.new seat.old × M.then seat.old.sitter new.ptr seat.new.sitter }
    {
        self.operate_link::<M>(seat, link, LinkOperation::Store, new);
    }

    /// Sets the link of a block where it is unset. It answers with the link as it was.
    #[inline(always)]
    pub fn install<M: LinkPlay<S, V>>(
        &self,
        seat: &mut Seat<S, V, A>,
        link: BlockPtr<S>,
        new: BlockPtr<S>,
    ) -> BlockPtr<S>
        requires sits { Sits seat.old self.now }
        requires there { InBlock link.ptr }
        requires allows { AllowsLink (P.holds self.now.key) seat.old.id seat.old.sitter link.ptr (if_unset new.ptr) (M.then seat.old.sitter) }
        ensures { Same seat.new seat.old × Testable result.ptr × M.then seat.old.sitter result.ptr seat.new.sitter }
    {
        self.operate_link::<M>(seat, link, LinkOperation::Install, new)
    }

    /// Cuts a seat's view in two, and makes a seat with the second.
    #[inline(always)]
    pub fn split<M: Split<V>>(&self, seat: &mut Seat<S, V, A>, link: BlockPtr<S>) -> Seat<S, V, A>
        requires sits { Sits seat.old self.now }
        requires there { InBlock link.ptr }
        requires forks { CanFork (P.holds self.now.key) link.ptr seat.old.id seat.old.sitter.view (M.left seat.old.sitter.view) (M.right seat.old.sitter.view) }
        ensures old { Same seat.new seat.old × (seat.new.sitter ≡ sitter (M.left seat.old.sitter.view) seat.old.sitter.hand seat.old.sitter.spare) }
        ensures new { (result.web ≡ seat.old.web) × (result.heap ≡ seat.old.heap) × (result.sitter ≡ sitter (M.right seat.old.sitter.view) None None) }
    {
        unsafe { raw::load::<Brand>(&raw const (*link.ptr).words as *const u64, SeqCst) };
        Seat {
            marker: PhantomData,
        }
    }

    // Both views change, and the other's is spent.
    #[inline(always)]
    fn merge<M: Join<V>>(
        &self,
        seat: &mut Seat<S, V, A>,
        other: &mut Seat<S, V, A>,
        link: BlockPtr<S>,
    )
        requires sits { Sits seat.old self.now }
        requires other { Sits other.old self.now }
        requires there { InBlock link.ptr }
        requires merges { CanMerge (P.holds self.now.key) link.ptr seat.old.id seat.old.sitter.view other.old.id other.old.sitter.view (M.both seat.old.sitter.view other.old.sitter.view) M.spent }
        ensures { Same seat.new seat.old × (seat.new.sitter ≡ sitter (M.both seat.old.sitter.view other.old.sitter.view) seat.old.sitter.hand seat.old.sitter.spare) }
    {
        unsafe { raw::load::<Brand>(&raw const (*link.ptr).words as *const u64, SeqCst) };
    }

    /// Takes another seat's view in.
    #[inline(always)]
    pub fn join<M: Join<V>>(
        &self,
        seat: &mut Seat<S, V, A>,
        mut other: Seat<S, V, A>,
        link: BlockPtr<S>,
    )
        requires sits { Sits seat.old self.now }
        requires other { Sits other self.now }
        requires empty { (other.sitter.hand ≡ None) × (other.sitter.spare ≡ None) }
        requires there { InBlock link.ptr }
        requires merges { CanMerge (P.holds self.now.key) link.ptr seat.old.id seat.old.sitter.view other.id other.sitter.view (M.both seat.old.sitter.view other.sitter.view) M.spent }
        ensures { Same seat.new seat.old × (seat.new.sitter ≡ sitter (M.both seat.old.sitter.view other.sitter.view) seat.old.sitter.hand seat.old.sitter.spare) }
    {
        self.merge::<M>(seat, &mut other, link);
        other.leave();
    }
}
