// Allocators whose blocks' places can be compared with null.
ghost use mir.Syntax.{Ty};
ghost use types.Logic.{sem};
ghost use denote.RawPtr.{Testable};

use std::alloc::{Allocator, Global};

/// An allocator of which each block's place can be compared with null, which `Allocator` alone does not promise.
///
/// # Safety
///
/// `test` hands the right to free the block back, and what it tells is so.
pub unsafe trait NullTestable: Allocator {
    /// Does nothing. Whoever may free the block at `place` learns that `place` can be compared with null.
    fn test(&self, place: *mut u8)
        ghost ty: { Ty }
        requires* { sem 𝓛 (Self.dealloc_token self.now ty place) }
        ensures low { Testable place }
        ensures* right { sem 𝓛 (Self.dealloc_token self.now ty place) };
}

unsafe impl NullTestable for Global {
    #[inline(always)]
    fn test(&self, _place: *mut u8) {}
}

unsafe impl<A: NullTestable> NullTestable for &A {
    #[inline(always)]
    fn test(&self, place: *mut u8) {
        A::test(*self, place)
    }
}
