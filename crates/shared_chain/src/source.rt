//! Where the blocks of a chain come from.
ghost use Rattle.std.specs.Prelude.{◌≡◌, replicate, IfOk};
ghost use denote.RawPtr.{InBlock, Testable, null_ptr};
ghost use Rattle.mem_blocks.specs.Web.{vacant};

use mem_blocks::block::Loose;
use mem_blocks::item::{Item, Place};
use mem_blocks::null_testable::NullTestable;
use mem_blocks::sizes::SLOTS;
use std::alloc::{AllocError, Allocator};

/// Answers a call that asks for a block.
pub trait Source<T, A: Allocator> {
    /// A block whose link is unset, whose words are 0 and whose slots are empty, and whose place can be compared with null.
    ///
    /// # Errors
    ///
    /// Where there is none.
    fn ask(alloc: &A) -> Result<(Place<T>, Loose<Item<T>, A>), AllocError>
        ensures made { IfOk result (λ l. (l.1.heap ≡ alloc.now) × (l.1.at ≡ l.0.ptr) × InBlock l.0.ptr × (l.1.next ≡ null_ptr) × (l.1.words ≡ replicate SLOTS 0) × (l.1.homes ≡ replicate SLOTS vacant)) }
        ensures low { IfOk result (λ l. Testable l.0.ptr) };
}

/// Asks the allocator: one request for each block.
pub struct Granting;

impl<T, A: NullTestable> Source<T, A> for Granting {
    #[inline(always)]
    fn ask(alloc: &A) -> Result<(Place<T>, Loose<Item<T>, A>), AllocError> {
        Loose::make_testable(alloc)
    }
}

/// Refuses, for calls that never ask.
pub struct Refusing;

impl<T, A: Allocator> Source<T, A> for Refusing {
    #[inline(always)]
    fn ask(_alloc: &A) -> Result<(Place<T>, Loose<Item<T>, A>), AllocError> {
        Err(AllocError)
    }
}
