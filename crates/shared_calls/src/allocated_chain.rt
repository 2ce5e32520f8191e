//! A chain of blocks that parties share, and where its blocks come from.
ghost use Rattle.std.specs.Prelude.{◌≡◌};
ghost use Rattle.shared_chain.specs.Turning.{heap_of};

use shared_chain::web::ChainWeb;
use std::alloc::Allocator;

/// A chain and the allocator of its blocks.
pub struct AllocatedChain<T, A: Allocator> {
    pub alloc: A,
    pub chain: ChainWeb<T, A>,
    ghost of: { heap_of chain ≡ alloc },
}
