// Items as the slots of a web hold them.
ghost use Rattle.std.specs.Prelude.{◌≡◌};

use crate::block::BlockPtr;
use std::marker::Model;

/// An item, as a slot holds it. A contract sees the item itself.
///
/// A rule over slots of `T` itself would do, but then no caller is covered that hands on by value what has both a web
/// under such a rule and a value of a type parameter, such as an allocator.
#[derive(Drop)]
pub struct Item<T> {
    value: T,
}

/// Where a block of items lies, or null.
pub type Place<T> = BlockPtr<Item<T>>;

impl<T> Model for Item<T> {
    ghost Value = { T };

    ghost view = { λ i. i.value };
}

impl<T> Item<T> {
    /// The item, to be put into a slot.
    #[inline(always)]
    pub fn new(value: T) -> Item<T>
        ensures { result ≡ value }
    {
        Item { value }
    }

    /// The item, in its slot.
    #[inline(always)]
    pub fn get(&self) -> &T
        ensures { result.now ≡ self.now }
    {
        &self.value
    }

    /// The item, which was taken out of a slot.
    #[inline(always)]
    pub fn into_inner(self) -> T
        ensures { result ≡ self }
    {
        let Item { value } = self;
        value
    }
}
