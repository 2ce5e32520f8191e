//! A log of the newest entries: a ring in which the oldest entry gives way.
ghost use Rattle.std.specs.Prelude.{◌≡◌, ◌+◌, ◌<◌, ◌≤◌, [], ◌∷◌, ◌++◌, length, IfOk, MatchResult};
ghost use Rattle.queue_steps.specs.declared.sizes.TheConstants.{LIMIT};
ghost use Rattle.std.specs.Map.Iter.{ShowsInOrder, deref};
ghost use Rattle.queue_steps.specs.Replies.{is_empty};
ghost use Rattle.use_owner.specs.Log.{newest, with_all, Appends, TakesOldest};

use exclusive_queue::Exclusive;
use exclusive_queue::exclusive::Iter;
use std::alloc::{AllocError, Allocator, Global};
use std::marker::Model;

/// The newest entries, as many as its capacity, in the order in which they came.
///
/// A contract sees the capacity, the entries that are held, and how many were ever appended, which are at most `LIMIT`.
#[derive(Drop)]
pub struct Log<T, A: Allocator = Global> {
    ring: Exclusive<T, A>,
}

impl<T, A: Allocator> Model for Log<T, A> {
    ghost use Rattle.use_owner.specs.Log.{Held};

    ghost Value = { Held T };

    ghost use Rattle.use_owner.specs.LogRings.{held_by, IsLog};

    ghost view = { λ log. held_by log.ring };

    ghost invariant = { λ log. IsLog log.ring };
}

impl<T, A: Allocator + Clone> Log<T, A> {
    /// An empty log that holds this many entries, two at least.
    ///
    /// # Errors
    ///
    /// As for a ring of this capacity: there is no memory, or the capacity is above 2^59.
    pub fn new(alloc: A, capacity: usize) -> Result<Self, AllocError>
        requires { 1 < capacity }
        ensures { IfOk result (λ log. log ≡ record { capacity = capacity; entries = []; appended = 0 }) }
    {
        let ring = Exclusive::bounded(alloc, capacity)?;
        Ok(Log { ring })
    }
}

impl<T, A: Allocator> Log<T, A> {
    /// Appends an entry. Where the log is full, its oldest entry gives way and is handed out.
    ///
    /// # Errors
    ///
    /// The entry, where `LIMIT` entries were appended before it. The log is as it was.
    pub fn append(&mut self, entry: T) -> Result<Option<T>, T>
        ensures { MatchResult result
            (λ gone. Appends self.old entry gone self.new)
            (λ back. (back ≡ entry) × (self.old.appended ≡ LIMIT) × (self.new ≡ self.old)) }
    {
        let accepted = self.ring.force_push(entry);
        self.ring.show_sound();
        match accepted {
            Ok(gone) => Ok(gone),
            Err(error) => Err(error.into_inner()),
        }
    }

    /// Takes the oldest entry out.
    pub fn take_oldest(&mut self) -> Option<T>
        ensures { TakesOldest self.old result self.new }
    {
        self.ring.pop().ok()
    }

    /// How many entries are held.
    pub fn len(&self) -> usize
        ensures { result ≡ length self.now.entries }
    {
        self.ring.len()
    }

    /// Whether no entry is held.
    pub fn is_empty(&self) -> bool
        ensures { result ≡ is_empty self.now.entries }
    {
        self.ring.is_empty()
    }

    /// The entries that are held, the oldest first. They stay in the log.
    pub fn iter(&self) -> Iter<'_, T, A>
        ensures rest { result ≡ self.now.entries }
        ensures runs { ShowsInOrder (deref {X = T}) }
    {
        self.ring.iter()
    }
}

impl<'a, T, A: Allocator> IntoIterator for &'a Log<T, A> {
    type Item = &'a T;

    type IntoIter = Iter<'a, T, A>;

    ghost into_iter_gives = { λ log iter. (iter ≡ log.now.entries) × ShowsInOrder (deref {X = T}) };

    fn into_iter(self) -> Iter<'a, T, A> {
        self.iter()
    }
}

impl<T: Copy, A: Allocator + Clone> Log<T, A> {
    /// A log of this capacity, two at least, of the last of these entries.
    ///
    /// # Errors
    ///
    /// As `new`.
    pub fn of(alloc: A, capacity: usize, entries: &[T]) -> Result<Self, AllocError>
        requires many { 1 < capacity }
        requires room { length entries.now ≤ LIMIT }
        ensures { IfOk result (λ log. log ≡ record { capacity = capacity; entries = newest capacity entries.now; appended = length entries.now }) }
    {
        let mut log = Log::new(alloc, capacity)?;
        log.append_all(entries);
        Ok(log)
    }
}

impl<T: Copy, A: Allocator> Log<T, A> {
    /// Appends entries, one after another.
    pub fn append_all(&mut self, entries: &[T])
        requires { self.old.appended + length entries.now ≤ LIMIT }
        ensures { self.new ≡ with_all self.old entries.now }
    {
        self.ring.show_sound();
        for entry in entries {
            let Ok(_gone) = self.append(*entry) else {
                unreachable!()
            };
        }
    }
}
