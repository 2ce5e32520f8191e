//! The items of a ring, read in their slots.
ghost use Rattle.std.specs.Prelude.{◌≡◌, ◌<◌, length};
ghost use Rattle.std.specs.Iterator.{at_most};
ghost use Rattle.std.specs.Map.Iter.{TakesFirst, deref};
ghost use Rattle.own_cells.specs.OneRing.RingCells.{item_at};
ghost use Rattle.own_cells.specs.OneRing.RingOwned.{IsIdle, ring_queue};

use crate::ring::own_ring::OwnRing;
use queue_steps::words::position_of;
use std::alloc::Allocator;
use std::marker::Model;

/// The items of a ring that are still to be read, the front first.
///
/// A contract sees their list.
#[derive(Drop)]
pub struct Items<'a, T, A: Allocator> {
    ring: &'a OwnRing<T, A>,
    /// The slot of the next item.
    slot: usize,
    /// How many items are still to be read.
    left: u64,
}

impl<'a, T, A: Allocator> Model for Items<'a, T, A> {
    ghost use Rattle.std.specs.Prelude.{List};
    ghost use Rattle.own_cells.specs.OneRing.ItemsLeft.{Reads, items_left};

    ghost Value = { List T };

    ghost view = { λ i. items_left i.ring.now i.left };

    ghost invariant = { λ i. Reads i.ring.now i.slot i.left };
}

impl<T, A: Allocator> OwnRing<T, A> {
    /// What is in a slot.
    fn content(&self, slot: usize) -> &Option<T>
        requires { slot < length self.now.slots }
        ensures { result.now ≡ item_at self.now slot }
    {
        self.memory.slots.get(slot)
    }

    /// The items, the front first.
    pub fn items(&self) -> Items<'_, T, A>
        requires { IsIdle self.now }
        ensures { result ≡ (ring_queue self.now).items }
    {
        let head = self.head();
        Items {
            ring: self,
            slot: (head % self.capacity as u64) as usize,
            left: position_of(self.tail()) - head,
        }
    }
}

impl<'a, T, A: Allocator> Iterator for Items<'a, T, A> {
    type Item = &'a T;

    ghost next_gives = { TakesFirst deref };

    ghost remaining = { λ items. at_most (length items) };

    fn next(&mut self) -> Option<&'a T> {
        if self.left == 0 {
            return None;
        }
        let ring = self.ring;
        let Some(item) = ring.content(self.slot) else {
            unreachable!()
        };
        self.left -= 1;
        self.slot += 1;
        if self.slot == ring.capacity {
            self.slot = 0;
        }
        Some(item)
    }
}
