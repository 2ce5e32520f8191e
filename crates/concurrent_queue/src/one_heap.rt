//! Allocators of which there is one value.
use std::alloc::{Allocator, Global};

/// An allocator any two values of which are the same, so that a block that one of them gave may be given back to another. Code that is generic over its
/// allocator takes up the calls on a queue of any kind by this bound.
pub trait OneHeap: Allocator {
    ghost use Rattle.concurrent_queue.specs.OneHeap.{IsOneHeap};

    ghost one: { IsOneHeap Self };
}

impl OneHeap for Global {
    ghost use Rattle.std.specs.Prelude.{refl};

    ghost one = { λ a b. refl };
}
