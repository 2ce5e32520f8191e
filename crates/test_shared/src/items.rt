//! Items that have a number, and are counted until they are dropped.
use std::alloc::Global;
use std::process::Abort;
use std::sync::Arc;

/// What counts items.
#[derive(Drop)]
pub(crate) struct Items {
    count: Arc<u64>,
}

/// An item.
#[derive(Drop)]
pub(crate) struct Item {
    pub(crate) number: u64,
    counted: Arc<u64>,
}

impl Items {
    /// There is none. Asserts that there is memory.
    pub(crate) fn none(rt: &impl Abort, alloc: Global) -> Items {
        let count = Arc::new(alloc, 0).expect(rt, "memory");
        Items { count }
    }

    /// One more. Asserts that there is memory.
    pub(crate) fn item(&self, rt: &impl Abort, number: u64) -> Item {
        let counted = self.count.clone().expect(rt, "memory");
        Item { number, counted }
    }

    /// How many there are.
    pub(crate) fn alive(&self) -> u64 {
        (Arc::strong_count(&self.count) as u64).wrapping_sub(1)
    }
}
