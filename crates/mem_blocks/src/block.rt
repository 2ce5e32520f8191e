// A block, a pointer to one, and the ownership of one that is in no web.
ghost use Rattle.std.specs.Prelude.{◌≡◌, ℕ, ◌<◌, true, false, None, List, length, replicate, IfOk, IfSome};
ghost use base.Stored.{coded_list};
ghost use denote.RawPtr.{Ptr, InBlock, Testable, null_ptr, coded_ptr};
ghost use Rattle.mem_blocks.specs.Web.{Home, home_coded, vacant, alive_at, AllVacant};
ghost use Rattle.mem_blocks.specs.Laid.{block_owns, Small};

use crate::null_testable::NullTestable;
use crate::sizes::SLOTS;
use std::alloc::{AllocError, Allocator};
use std::marker::{Model, PhantomData};
use std::mem::{align_of, size_of};

// What each block begins with: the link to the next block, and the words.
#[repr(C)]
pub struct Node<S> {
    pub(crate) next: *mut Node<S>,
    pub(crate) words: [u64; SLOTS],
}

// A slot is memory for a value, and holds one or nothing.
#[repr(C)]
pub struct Block<S> {
    pub(crate) node: Node<S>,
    pub(crate) slots: [S; SLOTS],
}

/// Where a block lies, or null. It owns nothing.
pub struct BlockPtr<S> {
    pub ptr: *mut Node<S>,
}

impl<S> Clone for BlockPtr<S> {
    ghost is_clone = { λ x y. y ≡ x };

    ghost is_infallible = { λ _. Unit {0} };

    fn clone(&self) -> Result<BlockPtr<S>, AllocError> {
        Ok(*self)
    }
}

impl<S> Copy for BlockPtr<S> {}

unsafe impl<S> Send for BlockPtr<S> {}

unsafe impl<S> Sync for BlockPtr<S> {}

/// The block at `at`, and the right to free it. It has no bytes.
pub struct Loose<S, A: Allocator> {
    pub(crate) marker: PhantomData<(S, A)>,
    pub ghost heap: { A },
    pub ghost at: { Ptr } by { coded_ptr },
    pub ghost next: { Ptr } by { coded_ptr },
    pub ghost words: { List ℕ },
    pub ghost homes: { List (Home S) } by { coded_list (home_coded S.code) },
}

impl<S, A: Allocator> Model for Loose<S, A> {
    ghost also_owns = { λ l. block_owns S.row (A.dealloc_token l.heap) (alive_at l.at l.next l.words l.homes) };
}

// Whether a slot has fewer bytes than half of what 32 bits count.
pub(crate) fn is_small<S>() -> bool
    ensures { result ≡ true → Small S.row }
{
    size_of::<S>() < 0x8000_0000
}

// Whether a link leads nowhere.
#[inline(always)]
fn is_unset<S>(link: BlockPtr<S>) -> bool
    requires { Testable link.ptr }
    ensures unset { result ≡ true → link.ptr ≡ null_ptr }
    ensures set { result ≡ false → InBlock link.ptr }
{
    link.ptr == std::ptr::null_mut()
}

impl<S> BlockPtr<S> {
    /// The link itself, or nothing where it leads nowhere.
    #[inline(always)]
    pub fn get(self) -> Option<BlockPtr<S>>
        requires { Testable self.ptr }
        ensures some { IfSome result (λ l. (l.ptr ≡ self.ptr) × InBlock l.ptr) }
        ensures none { result ≡ None → self.ptr ≡ null_ptr }
    {
        if is_unset(self) { None } else { Some(self) }
    }
}

impl<S, A: Allocator> Loose<S, A> {
    // Asks for the memory of a block, and unsets its link and clears its words.
    pub(crate) fn reserve(alloc: &A) -> Result<(BlockPtr<S>, Loose<S, A>), AllocError>
        requires { Small S.row }
        ensures { IfOk result (λ l. (l.1.heap ≡ alloc.now) × (l.1.at ≡ l.0.ptr) × InBlock l.0.ptr × (l.1.next ≡ null_ptr) × (l.1.words ≡ replicate SLOTS 0) × (l.1.homes ≡ replicate SLOTS vacant)) }
    {
        match alloc.allocate(size_of::<Block<S>>(), align_of::<Block<S>>()) {
            Ok(room) => {
                let block = room as *mut Block<S>;
                let ptr = unsafe { &raw mut (*block).node };
                unsafe {
                    (&raw mut (*ptr).next).write(std::ptr::null_mut());
                    (&raw mut (*ptr).words).write([0; SLOTS]);
                }
                let marker = PhantomData;
                Ok((BlockPtr { ptr }, Loose { marker }))
            }
            Err(error) => Err(error),
        }
    }

    /// A block whose link is unset, whose words are 0 and whose slots are empty. It is one request, which is refused
    /// without being made where a slot has 2^31 bytes or more.
    pub fn make(alloc: &A) -> Result<(BlockPtr<S>, Loose<S, A>), AllocError>
        ensures { IfOk result (λ l. (l.1.heap ≡ alloc.now) × (l.1.at ≡ l.0.ptr) × InBlock l.0.ptr × (l.1.next ≡ null_ptr) × (l.1.words ≡ replicate SLOTS 0) × (l.1.homes ≡ replicate SLOTS vacant)) }
    {
        if is_small::<S>() {
            Loose::reserve(alloc)
        } else {
            Err(AllocError)
        }
    }

    // Does nothing, and tells that the block's place can be compared with null.
    #[inline(always)]
    fn tested(self, alloc: &A, link: BlockPtr<S>) -> Loose<S, A>
    where
        A: NullTestable,
        requires { (self.heap ≡ alloc.now) × (self.at ≡ link.ptr) × (length self.homes ≡ SLOTS) }
        ensures same { result ≡ self }
        ensures low { Testable link.ptr }
    {
        alloc.test(link.ptr as *mut u8);
        let Loose { marker: _ } = self;
        Loose {
            marker: PhantomData,
        }
    }

    /// The same as `make`, and the block's place can be compared with null.
    pub fn make_testable(alloc: &A) -> Result<(BlockPtr<S>, Loose<S, A>), AllocError>
    where
        A: NullTestable,
        ensures made { IfOk result (λ l. (l.1.heap ≡ alloc.now) × (l.1.at ≡ l.0.ptr) × InBlock l.0.ptr × (l.1.next ≡ null_ptr) × (l.1.words ≡ replicate SLOTS 0) × (l.1.homes ≡ replicate SLOTS vacant)) }
        ensures low { IfOk result (λ l. Testable l.0.ptr) }
    {
        let (link, block) = Loose::make(alloc)?;
        let block = block.tested(alloc, link);
        Ok((link, block))
    }

    /// Gives the memory of a block back, all of whose slots are empty.
    pub fn give_up(self, alloc: &A, link: BlockPtr<S>)
        requires { (self.heap ≡ alloc.now) × (self.at ≡ link.ptr) × (length self.homes ≡ SLOTS) × AllVacant self.homes }
    {
        let Loose { marker: _ } = self;
        unsafe {
            alloc.deallocate(
                link.ptr as *mut u8,
                size_of::<Block<S>>(),
                align_of::<Block<S>>(),
            );
        }
    }
}

unsafe impl<S: Send, A: Allocator + Send> Send for Loose<S, A> {}

unsafe impl<S: Send, A: Allocator + Send> Sync for Loose<S, A> {}
