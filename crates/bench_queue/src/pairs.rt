//! Pushes and pops by one thread.
//!
//! The compiler puts a push or a pop in place where it is called in one place alone. So each of the two loops here has item types of its own, and what lies behind is filled in by another call.

/// A queue that one thread pushes into and pops from.
pub trait Lane<T> {
    /// Pushes the item. It is dropped where the queue does not take it.
    fn put(&mut self, item: T);

    /// Pops an item.
    fn take(&mut self) -> Option<T>;

    /// Pushes an item that is to lie behind, from before the clock is started.
    fn fill(&mut self, item: T);
}

/// A value that carries a number, in so many bytes.
pub trait Item: Copy {
    /// The value of this number.
    fn numbered(number: u64) -> Self;

    /// The number that the value carries.
    fn number(&self) -> u64;
}

/// An item, and the loop that it goes through.
pub trait Runs: Item {
    /// Fills in the items that are to lie behind, of which there are so many. No items lie behind where they come in batches.
    fn lay<L: Lane<Self>>(lane: &mut L, items: u64);

    /// Pushes and pops so many pairs on a queue: in turn where so many items lie behind, or in batches of so many items.
    fn run<L: Lane<Self>>(lane: &mut L, items: u64, pairs: u64) -> Taken<Self>;
}

/// What was popped: the sum of the numbers, and the last item.
#[derive(Clone, Copy)]
pub struct Taken<T> {
    pub sum: u64,
    pub last: T,
}

impl<T: Item> Taken<T> {
    #[inline(always)]
    fn nothing() -> Taken<T> {
        Taken {
            sum: 0,
            last: T::numbered(0),
        }
    }

    #[inline(always)]
    fn add(&mut self, item: Option<T>) {
        if let Some(item) = item {
            self.sum = self.sum.wrapping_add(item.number());
            self.last = item;
        }
    }
}

impl<const WORDS: usize> Item for [u64; WORDS] {
    fn numbered(number: u64) -> [u64; WORDS] {
        [number; WORDS]
    }

    fn number(&self) -> u64 {
        match self.first() {
            Some(number) => *number,
            None => 0,
        }
    }
}

/// Items that are pushed and popped in turn.
impl<const WORDS: usize> Runs for [u64; WORDS] {
    fn lay<L: Lane<[u64; WORDS]>>(lane: &mut L, items: u64) {
        for number in 0..items {
            lane.fill([number; WORDS]);
        }
    }

    #[inline(never)]
    fn run<L: Lane<[u64; WORDS]>>(lane: &mut L, items: u64, pairs: u64) -> Taken<[u64; WORDS]> {
        let mut taken = Taken::nothing();
        let mut number = items;
        for _ in 0..pairs {
            lane.put(Item::numbered(number));
            number = number.wrapping_add(1);
            taken.add(lane.take());
        }
        taken
    }
}

/// An item of a batch.
#[derive(Clone, Copy)]
pub struct Batched<T>(T);

impl<T: Item> Item for Batched<T> {
    fn numbered(number: u64) -> Batched<T> {
        Batched(T::numbered(number))
    }

    fn number(&self) -> u64 {
        self.0.number()
    }
}

impl<T: Item> Runs for Batched<T> {
    fn lay<L: Lane<Batched<T>>>(_lane: &mut L, _items: u64) {}

    #[inline(never)]
    fn run<L: Lane<Batched<T>>>(lane: &mut L, items: u64, pairs: u64) -> Taken<Batched<T>> {
        let mut taken = Taken::nothing();
        let mut number = 0u64;
        for _ in 0..pairs.checked_div(items).unwrap_or(0) {
            for _ in 0..items {
                lane.put(Item::numbered(number));
                number = number.wrapping_add(1);
            }
            for _ in 0..items {
                taken.add(lane.take());
            }
        }
        taken
    }
}
