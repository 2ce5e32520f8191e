// The two ends of a shared queue, in one allocation of a size of its own.
ghost use Rattle.std.specs.Prelude.{◌≡◌, List, [], replicate, IfOk};
ghost use denote.RawPtr.{Ptr, InBlock, null_ptr, coded_ptr};
ghost use Rattle.mem_blocks.specs.Laid.{Small, head_of, hub_rim, hub_size};

use crate::block::{BlockPtr, Loose, Node, is_small};
use crate::sizes::END_WORDS;
use std::alloc::{AllocError, Allocator};
use std::marker::{Model, PhantomData};
use std::mem::{align_of, size_of};

/// The word of the tail that holds its position.
pub const TAIL: usize = 0;

/// The word of the tail that counts the parties.
pub const PARTIES: usize = 1;

/// The word of the head that holds its position.
pub const HEAD: usize = 0;

// An end begins as a block does, and has fewer words.
#[repr(C)]
pub struct EndNode<S> {
    pub(crate) next: *mut Node<S>,
    pub(crate) words: [u64; END_WORDS],
}

// What a push writes and what a pop writes lie two lines of a cache apart.
#[repr(C)]
pub struct EndNodes<S> {
    pub(crate) tail: EndNode<S>,
    pub(crate) head: EndNode<S>,
}

/// The right to free the ends at `at`, once both are back. It has no bytes.
pub struct Hub<S, A: Allocator> {
    pub(crate) marker: PhantomData<(S, A)>,
    pub ghost heap: { A },
    pub ghost at: { Ptr } by { coded_ptr },
}

impl<S, A: Allocator> Model for Hub<S, A> {
    ghost also_owns = { λ h. hub_rim (A.dealloc_token h.heap) h.at };
}

impl<S, A: Allocator> Hub<S, A> {
    // Asks for the memory of both ends, and unsets their links and clears their words.
    fn reserve(
        alloc: &A,
        size: usize,
    ) -> Result<
        (
            Hub<S, A>,
            BlockPtr<S>,
            Loose<S, A>,
            BlockPtr<S>,
            Loose<S, A>,
        ),
        AllocError,
    >
        requires { Small S.row × (size ≡ hub_size) }
        ensures hub { IfOk result (λ r. (r.0.heap ≡ alloc.now) × (r.0.at ≡ r.1.ptr) × InBlock r.1.ptr × (r.3.ptr ≡ head_of r.1.ptr)) }
        ensures tail { IfOk result (λ r. (r.2.heap ≡ alloc.now) × (r.2.at ≡ r.1.ptr) × (r.2.next ≡ null_ptr) × (r.2.words ≡ replicate END_WORDS 0) × (r.2.homes ≡ [])) }
        ensures head { IfOk result (λ r. (r.4.heap ≡ alloc.now) × (r.4.at ≡ r.3.ptr) × (r.4.next ≡ null_ptr) × (r.4.words ≡ replicate END_WORDS 0) × (r.4.homes ≡ [])) }
    {
        match alloc.allocate(size, align_of::<EndNodes<S>>()) {
            Ok(room) => {
                let ends = room as *mut EndNodes<S>;
                let tail = unsafe { &raw mut (*ends).tail };
                let head = unsafe { &raw mut (*ends).head };
                unsafe {
                    (&raw mut (*tail).next).write(std::ptr::null_mut());
                    (&raw mut (*tail).words).write([0; END_WORDS]);
                    (&raw mut (*head).next).write(std::ptr::null_mut());
                    (&raw mut (*head).words).write([0; END_WORDS]);
                }
                let marker = PhantomData;
                Ok((
                    Hub {
                        marker: PhantomData,
                    },
                    BlockPtr {
                        ptr: tail as *mut Node<S>,
                    },
                    Loose { marker },
                    BlockPtr {
                        ptr: head as *mut Node<S>,
                    },
                    Loose { marker },
                ))
            }
            Err(error) => Err(error),
        }
    }

    /// Two ends whose links are unset and whose words are 0: the right to free them, the tail and the head. It is one
    /// request, which is refused without being made where a slot has 2^31 bytes or more.
    pub fn make(
        alloc: &A,
    ) -> Result<
        (
            Hub<S, A>,
            BlockPtr<S>,
            Loose<S, A>,
            BlockPtr<S>,
            Loose<S, A>,
        ),
        AllocError,
    >
        ensures hub { IfOk result (λ r. (r.0.heap ≡ alloc.now) × (r.0.at ≡ r.1.ptr) × InBlock r.1.ptr × (r.3.ptr ≡ head_of r.1.ptr)) }
        ensures tail { IfOk result (λ r. (r.2.heap ≡ alloc.now) × (r.2.at ≡ r.1.ptr) × (r.2.next ≡ null_ptr) × (r.2.words ≡ replicate END_WORDS 0) × (r.2.homes ≡ [])) }
        ensures head { IfOk result (λ r. (r.4.heap ≡ alloc.now) × (r.4.at ≡ r.3.ptr) × (r.4.next ≡ null_ptr) × (r.4.words ≡ replicate END_WORDS 0) × (r.4.homes ≡ [])) }
    {
        if is_small::<S>() {
            Hub::reserve(alloc, size_of::<EndNodes<S>>())
        } else {
            Err(AllocError)
        }
    }

    // Puts the parts of both ends together, and gives the room back.
    fn free(self, alloc: &A, link: BlockPtr<S>, tail: Loose<S, A>, head: Loose<S, A>, size: usize)
        requires { (self.heap ≡ alloc.now) × (tail.heap ≡ alloc.now) × (head.heap ≡ alloc.now) × (self.at ≡ link.ptr) × (tail.at ≡ link.ptr) × (head.at ≡ head_of link.ptr) × (size ≡ hub_size) }
    {
        let Hub { marker: _ } = self;
        let Loose { marker: _ } = tail;
        let Loose { marker: _ } = head;
        unsafe {
            alloc.deallocate(link.ptr as *mut u8, size, align_of::<EndNodes<S>>());
        }
    }

    /// Gives the memory of both ends back.
    pub fn give_up(self, alloc: &A, link: BlockPtr<S>, tail: Loose<S, A>, head: Loose<S, A>)
        requires { (self.heap ≡ alloc.now) × (tail.heap ≡ alloc.now) × (head.heap ≡ alloc.now) × (self.at ≡ link.ptr) × (tail.at ≡ link.ptr) × (head.at ≡ head_of link.ptr) }
    {
        self.free(alloc, link, tail, head, size_of::<EndNodes<S>>());
    }
}

unsafe impl<S: Send, A: Allocator + Send> Send for Hub<S, A> {}

unsafe impl<S: Send, A: Allocator + Send> Sync for Hub<S, A> {}
