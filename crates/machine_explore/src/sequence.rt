//! A list of which a contract sees the items alone.
ghost use Rattle.std.specs.Prelude.{◌≡◌, List, length};

use std::alloc::Allocator;
use std::marker::Model;

/// Items in their order.
#[derive(Drop)]
pub struct Sequence<X, A: Allocator> {
    items: Vec<X, A>,
}

impl<X, A: Allocator> Model for Sequence<X, A> {
    ghost Value = { List X };

    ghost view = { λ s. s.items.items };
}

impl<X, A: Allocator> Sequence<X, A> {
    /// The items of a vector.
    pub fn of(items: Vec<X, A>) -> Self
        ensures { result ≡ items.items }
    {
        Sequence { items }
    }

    /// The items as a slice.
    pub fn as_slice(&self) -> &[X]
        ensures { result.now ≡ self.now }
    {
        self.items.as_slice()
    }

    /// How many items there are.
    pub fn len(&self) -> usize
        ensures { result ≡ length self.now }
    {
        self.items.len()
    }
}
