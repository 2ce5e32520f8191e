//! Items that count their drops.
use std::sync::atomic::{AtomicU64, Ordering};

/// How many items were made, and how many of them dropped.
#[derive(Drop)]
pub struct Items {
    made: AtomicU64,
    dropped: AtomicU64,
}

impl Items {
    /// None was made.
    pub fn none() -> Items {
        Items {
            made: AtomicU64::new(0),
            dropped: AtomicU64::new(0),
        }
    }

    /// How many were made.
    pub fn made(&self) -> u64 {
        self.made.load(Ordering::SeqCst)
    }

    /// How many were dropped.
    pub fn dropped(&self) -> u64 {
        self.dropped.load(Ordering::SeqCst)
    }
}

/// An item that counts its drop.
pub struct Counted<'a> {
    items: &'a Items,
}

impl<'a> Counted<'a> {
    /// An item that is counted among these.
    pub fn of(items: &'a Items) -> Counted<'a> {
        items.made.fetch_add(1, Ordering::SeqCst);
        Counted { items }
    }
}

impl<'a> Drop for Counted<'a> {
    fn drop(self) {
        let Counted { items } = self;
        items.dropped.fetch_add(1, Ordering::SeqCst);
    }
}
