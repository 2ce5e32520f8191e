//! The items of a queue with one owner, read in their places or taken out.
ghost use Rattle.std.specs.Prelude.{◌≡◌, ◌<◌, ◌↔◌, length, IsSome, IfSome, slice_index_or};
ghost use Rattle.std.specs.Iterator.{at_most};
ghost use Rattle.std.specs.Map.Iter.{TakesFirst, ShowsInOrder, GivesInOrder, deref};

use crate::exclusive::Exclusive;
use crate::exclusive::form::Form;
use own_cells::chain::reading::Items as BlockItems;
use own_cells::ring::reading::Items as RingItems;
use std::alloc::{Allocator, Global};
use std::iter::FusedIterator;
use std::marker::Model;

/// The items that are left, as they are kept.
#[derive(Drop)]
enum Left<'a, T, A: Allocator> {
    /// The item of a slot.
    Slot(Option<&'a T>),
    /// Those of a ring.
    Ring(RingItems<'a, T, A>),
    /// Those of a chain of blocks.
    Chain(BlockItems<'a, T, A>),
}

impl<'a, T, A: Allocator> Left<'a, T, A> {
    ghost use Rattle.exclusive_queue.specs.Reading.{list_of};

    fn next(&mut self) -> Option<&'a T>
        ensures { TakesFirst deref (list_of self.old) result (list_of self.new) }
    {
        match self {
            Left::Slot(item) => item.take(),
            Left::Ring(items) => items.next(),
            Left::Chain(items) => items.next(),
        }
    }
}

/// An iterator over the items of a queue, the front first. It takes nothing off.
///
/// A contract sees the items that are left.
#[derive(Drop)]
pub struct Iter<'a, T, A: Allocator = Global> {
    left: Left<'a, T, A>,
}

impl<'a, T, A: Allocator> Model for Iter<'a, T, A> {
    ghost use Rattle.std.specs.Prelude.{List};
    ghost use Rattle.exclusive_queue.specs.Reading.{list_of};

    ghost Value = { List T };

    ghost view = { λ i. list_of i.left };
}

impl<'a, T, A: Allocator> Iterator for Iter<'a, T, A> {
    type Item = &'a T;

    ghost next_gives = { TakesFirst deref };

    ghost remaining = { λ items. at_most (length items) };

    fn next(&mut self) -> Option<&'a T> {
        self.left.next()
    }
}

impl<'a, T, A: Allocator> FusedIterator for Iter<'a, T, A> {}

impl<T, A: Allocator> Exclusive<T, A> {
    /// The items, the front first. They stay in the queue.
    pub fn iter(&self) -> Iter<'_, T, A>
        ensures rest { result ≡ self.now.queue.items }
        ensures runs { ShowsInOrder (deref {X = T}) }
    {
        let left = match &self.form {
            Form::Slot(single) => Left::Slot(single.item.as_ref()),
            Form::Ring(ring) => Left::Ring(ring.items()),
            Form::Chain(blocks) => Left::Chain(blocks.items()),
        };
        Iter { left }
    }

    /// The front, which stays in the queue.
    pub fn front(&self) -> Option<&T>
        ensures variant { IsSome result ↔ (0 < length self.now.queue.items) }
        ensures lookup { IfSome result (λ x. x.now ≡ slice_index_or self.now.queue.items 0 x.now) }
    {
        self.iter().next()
    }
}

impl<'a, T, A: Allocator> IntoIterator for &'a Exclusive<T, A> {
    type Item = &'a T;

    type IntoIter = Iter<'a, T, A>;

    ghost into_iter_gives = { λ queue iter. (iter ≡ queue.now.queue.items) × ShowsInOrder (deref {X = T}) };

    fn into_iter(self) -> Iter<'a, T, A> {
        self.iter()
    }
}

/// An iterator that takes the items out of a queue, the front first. What it did not take is dropped with it.
///
/// A contract sees the items that are left.
#[derive(Drop)]
pub struct IntoIter<T, A: Allocator = Global> {
    queue: Exclusive<T, A>,
}

impl<T, A: Allocator> Model for IntoIter<T, A> {
    ghost use Rattle.std.specs.Prelude.{List};

    ghost Value = { List T };

    ghost view = { λ i. i.queue.queue.items };
}

impl<T: Drop, A: Allocator> Iterator for IntoIter<T, A> {
    type Item = T;

    ghost next_gives = { TakesFirst (λ x. x) };

    ghost remaining = { λ items. at_most (length items) };

    fn next(&mut self) -> Option<T> {
        self.queue.pop().ok()
    }
}

impl<T: Drop, A: Allocator> FusedIterator for IntoIter<T, A> {}

impl<T: Drop, A: Allocator> IntoIterator for Exclusive<T, A> {
    type Item = T;

    type IntoIter = IntoIter<T, A>;

    ghost into_iter_gives = { λ queue iter. (iter ≡ queue.queue.items) × GivesInOrder T };

    fn into_iter(self) -> IntoIter<T, A> {
        IntoIter { queue: self }
    }
}
