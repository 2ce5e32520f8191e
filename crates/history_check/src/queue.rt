//! The abstract queue, kept in memory.
ghost use Rattle.std.specs.Prelude.{◌≡◌, ℕ, ◌+◌, List, ◌++◌, ◌∷◌, [], true, false, None, IfOk, OnOk};
ghost use Rattle.queue_steps.specs.State.{State, start, is_full, IsBelow};
ghost use Rattle.queue_steps.specs.Effect.{Fits, made};
ghost use Rattle.queue_steps.specs.Replies.{Allows, MayAsk};
ghost use Rattle.queue_steps.specs.declared.model.Call.TheVariants as call;
ghost use Rattle.queue_steps.specs.declared.model.Effect.TheVariants as effect;
ghost use Rattle.queue_steps.specs.declared.model.Reply.TheVariants as reply;

use queue_steps::errors::{ForcePushError, PopError, PushError};
use queue_steps::model::{Call, Effect, Reply};
use queue_steps::sizes::{BLOCK_SLOTS, LIMIT};
use std::alloc::{AllocError, Allocator};
use std::collections::VecDeque;
use std::hash::{FoldHasher, Hasher};
use std::marker::Model;

/// A list, an optional capacity, a closed flag, at most one item on its way in, and how many items were accepted.
#[derive(Drop)]
pub struct Queue<A: Allocator> {
    items: VecDeque<u64, A>,
    cap: Option<usize>,
    closed: bool,
    coming: Option<u64>,
    accepted: u64,
}

/// How many words a queue and a stage around it take up beside items and calls, about.
const WORDS_BESIDE_ITEMS: usize = 32;

impl<A: Allocator> Model for Queue<A> {
    ghost Value = { State ℕ };

    ghost view = { λ q. record { items = q.items.items; cap = q.cap; closed = q.closed; coming = q.coming; accepted = q.accepted } };
}

impl<A: Allocator> Queue<A> {
    /// Empty and open.
    pub fn new(alloc: A, cap: Option<usize>) -> Queue<A>
        ensures { result ≡ start cap 0 }
    {
        Queue {
            items: VecDeque::new(alloc),
            cap,
            closed: false,
            coming: None,
            accepted: 0,
        }
    }

    /// Whether the queue is closed.
    pub fn is_closed(&self) -> bool
        ensures { result ≡ self.now.closed }
    {
        self.closed
    }

    /// Whether the list has the capacity's length.
    pub fn is_full(&self) -> bool
        ensures { result ≡ is_full self.now }
    {
        match self.cap {
            None => false,
            Some(cap) => self.items.len() == cap,
        }
    }

    /// Whether one item more may be accepted.
    pub fn is_below(&self) -> bool
        ensures done { result ≡ true → IsBelow self.now }
        ensures exact { result ≡ false → IsBelow self.now → ⊥ }
    {
        self.cap == Some(1) || self.accepted < LIMIT as u64
    }

    // Whether a push may ask for a block.
    fn may_ask(&self) -> bool
        ensures done { result ≡ true → MayAsk self.now }
        ensures exact { result ≡ false → MayAsk self.now → ⊥ }
    {
        let slots = BLOCK_SLOTS as u64;
        self.cap.is_none()
            && !self.closed
            && (self.accepted == 0 || self.accepted % slots == slots - 1)
    }

    // Whether nothing is in the list or on its way in.
    fn is_drained(&self) -> bool
        ensures done { result ≡ true → (self.now.items ≡ []) × (self.now.coming ≡ None) }
        ensures exact { result ≡ false → (self.now.items ≡ []) × (self.now.coming ≡ None) → ⊥ }
    {
        self.items.is_empty() && self.coming.is_none()
    }

    /// Whether the call may end here with this reply and no effect.
    pub fn allows(&self, call: Call<u64>, reply: Reply<u64>) -> bool
        ensures done { result ≡ true → Allows call reply self.now }
        ensures exact { result ≡ false → Allows call reply self.now → ⊥ }
    {
        match (call, reply) {
            (Call::Push(value), Reply::Push(Err(why))) => self.refuses(value, why),
            (Call::ForcePush(value), Reply::ForcePush(Err(why))) => self.refuses_forced(value, why),
            (Call::Pop, Reply::Pop(Err(PopError::Empty))) => self.is_drained() && !self.closed,
            (Call::Pop, Reply::Pop(Err(PopError::Closed))) => self.is_drained() && self.closed,
            (Call::Close, Reply::Close(false)) => self.closed,
            (Call::IsClosed, Reply::IsClosed(answer)) => answer == self.closed,
            (Call::IsEmpty, Reply::IsEmpty(answer)) => answer == self.items.is_empty(),
            (Call::IsFull, Reply::IsFull(answer)) => answer == self.is_full(),
            (Call::Len, Reply::Len(count)) => count == self.items.len(),
            (Call::Capacity, Reply::Capacity(cap)) => cap == self.cap,
            _ => false,
        }
    }

    // Whether a push of the value may be refused so.
    fn refuses(&self, value: u64, why: PushError<u64>) -> bool
        ensures done { result ≡ true → Allows (call.Push value) (reply.Push (Err why)) self.now }
        ensures exact { result ≡ false → Allows (call.Push value) (reply.Push (Err why)) self.now → ⊥ }
    {
        match why {
            PushError::Full(back) => back == value
                && !self.closed
                && self.is_full()
                && self.is_below(),
            PushError::Closed(back) => back == value && self.closed,
            PushError::NoMemory(back) => back == value && self.may_ask(),
        }
    }

    // Whether a forced push of the value may be refused so.
    fn refuses_forced(&self, value: u64, why: ForcePushError<u64>) -> bool
        ensures done { result ≡ true → Allows (call.ForcePush value) (reply.ForcePush (Err why)) self.now }
        ensures exact { result ≡ false → Allows (call.ForcePush value) (reply.ForcePush (Err why)) self.now → ⊥ }
    {
        match why {
            ForcePushError::Closed(back) => back == value && self.closed,
            ForcePushError::NoMemory(back) => back == value && self.may_ask(),
        }
    }

    /// Whether the effect may stand here, as far as a look at both ends tells.
    pub fn may_make(&self, effect: Effect<u64>) -> bool
        ensures { result ≡ false → Fits effect self.now → ⊥ }
    {
        match effect {
            Effect::Append(_) => !self.closed && self.coming.is_none() && !self.is_full(),
            Effect::Take(item) | Effect::Replace(item, _) | Effect::Front(item, _) => {
                self.begins_with(item)
            }
            Effect::Arrive => self.coming.is_some(),
            Effect::Close | Effect::SelfClose => !self.closed,
        }
    }

    // Whether the item is the front.
    fn begins_with(&self, item: u64) -> bool
        ensures { result ≡ false → (others : List ℕ) → self.now.items ≡ item ∷ others → ⊥ }
    {
        match self.items.front() {
            Some(front) => *front == item,
            None => false,
        }
    }

    /// How many words it takes up, about.
    pub fn words(&self) -> usize {
        self.items.len().saturating_add(WORDS_BESIDE_ITEMS)
    }

    /// Does the effect, if it may stand here. Where it may not, the queue is of no use any more.
    ///
    /// # Errors
    ///
    /// Where there is no memory.
    pub fn make(&mut self, effect: Effect<u64>) -> Result<bool, AllocError>
        ensures done { IfOk result (λ yes. yes ≡ true → Fits effect self.old × (self.new ≡ made effect self.old)) }
        ensures exact { IfOk result (λ yes. yes ≡ false → Fits effect self.old → ⊥) }
    {
        match effect {
            Effect::Append(value) => self.append(value),
            Effect::Take(value) => Ok(self.take(value)),
            Effect::Replace(old, value) => self.replace(old, value),
            Effect::Front(old, value) => Ok(self.front(old, value)),
            Effect::Arrive => self.arrive(),
            Effect::Close => Ok(self.close()),
            Effect::SelfClose => Ok(self.close_spent()),
        }
    }

    /// Takes the old front off a full queue that is open and puts the value at its end. Where it may not, the queue is of no use any more.
    ///
    /// # Errors
    ///
    /// Where there is no memory.
    pub fn displace(&mut self, old: u64, value: u64) -> Result<bool, AllocError>
        ensures done { IfOk result (λ yes. yes ≡ true → Fits (effect.Front old value) self.old × (self.old.closed ≡ false) × (self.new ≡ made effect.Arrive (made (effect.Front old value) self.old))) }
        ensures exact { IfOk result (λ yes. yes ≡ false → Fits (effect.Front old value) self.old × (self.old.closed ≡ false) → ⊥) }
    {
        if self.closed || !self.front(old, value) {
            return Ok(false);
        }
        self.arrive()
    }

    // Appends the value, if there is room.
    fn append(&mut self, value: u64) -> Result<bool, AllocError>
        ensures done { IfOk result (λ yes. yes ≡ true → Fits (effect.Append value) self.old × (self.new ≡ made (effect.Append value) self.old)) }
        ensures exact { IfOk result (λ yes. yes ≡ false → Fits (effect.Append value) self.old → ⊥) }
    {
        if self.closed || self.coming.is_some() || self.is_full() || !self.is_below() {
            return Ok(false);
        }
        self.put(value)?;
        Ok(true)
    }

    // Puts the value at the end, one more accepted. So many that a word does not count them lack memory.
    fn put(&mut self, value: u64) -> Result<(), AllocError>
        ensures { OnOk result (self.new ≡ record self.old { items = self.old.items ++ value ∷ []; accepted = self.old.accepted + 1 }) }
    {
        let Some(accepted) = self.accepted.checked_add(1) else {
            return Err(AllocError);
        };
        self.items.push_back(value)?;
        self.accepted = accepted;
        Ok(())
    }

    // Takes the front off, if it is this value.
    fn take(&mut self, value: u64) -> bool
        ensures done { result ≡ true → Fits (effect.Take value) self.old × (self.new ≡ made (effect.Take value) self.old) }
        ensures exact { result ≡ false → Fits (effect.Take value) self.old → ⊥ }
    {
        match self.items.front() {
            Some(item) if *item == value => {}
            _ => return false,
        }
        let _ = self.items.pop_front();
        true
    }

    // Puts the value in the place of the old one, alone in a queue of one slot.
    fn replace(&mut self, old: u64, value: u64) -> Result<bool, AllocError>
        ensures done { IfOk result (λ yes. yes ≡ true → Fits (effect.Replace old value) self.old × (self.new ≡ made (effect.Replace old value) self.old)) }
        ensures exact { IfOk result (λ yes. yes ≡ false → Fits (effect.Replace old value) self.old → ⊥) }
    {
        if self.cap != Some(1) || self.closed || self.items.len() != 1 || !self.take(old) {
            return Ok(false);
        }
        self.put(value)?;
        Ok(true)
    }

    // Takes the old front off a full queue; the value is on its way in.
    fn front(&mut self, old: u64, value: u64) -> bool
        ensures done { result ≡ true → Fits (effect.Front old value) self.old × (self.new ≡ made (effect.Front old value) self.old) }
        ensures exact { result ≡ false → Fits (effect.Front old value) self.old → ⊥ }
    {
        if self.cap == Some(1) || !self.is_full() || self.coming.is_some() || !self.is_below() {
            return false;
        }
        if !self.take(old) {
            return false;
        }
        self.coming = Some(value);
        true
    }

    // The item on its way in arrives.
    fn arrive(&mut self) -> Result<bool, AllocError>
        ensures done { IfOk result (λ yes. yes ≡ true → Fits effect.Arrive self.old × (self.new ≡ made effect.Arrive self.old)) }
        ensures exact { IfOk result (λ yes. yes ≡ false → Fits effect.Arrive self.old → ⊥) }
    {
        let Some(value) = self.coming.take() else {
            return Ok(false);
        };
        self.put(value)?;
        Ok(true)
    }

    // Closes the queue, if it is open.
    fn close(&mut self) -> bool
        ensures done { result ≡ true → Fits effect.Close self.old × (self.new ≡ made effect.Close self.old) }
        ensures exact { result ≡ false → Fits effect.Close self.old → ⊥ }
    {
        if self.closed {
            return false;
        }
        self.closed = true;
        true
    }

    // Closes the queue, if it is open and has accepted all that it ever will.
    fn close_spent(&mut self) -> bool
        ensures done { result ≡ true → Fits effect.SelfClose self.old × (self.new ≡ made effect.SelfClose self.old) }
        ensures exact { result ≡ false → Fits effect.SelfClose self.old → ⊥ }
    {
        if self.closed || self.cap == Some(1) || self.accepted != LIMIT as u64 {
            return false;
        }
        self.closed = true;
        true
    }

    /// The front of the list, or 0 where there is none.
    pub fn front_or_zero(&self) -> u64
        ensures { (x : ℕ) (others : List ℕ) → self.now.items ≡ x ∷ others → result ≡ x }
    {
        match self.items.front() {
            Some(item) => *item,
            None => 0,
        }
    }

    /// Whether it is the same as the other.
    pub fn is_same(&self, other: &Queue<A>) -> bool
        ensures { result ≡ true → self.now ≡ other.now }
    {
        self.items == other.items
            && self.cap == other.cap
            && self.closed == other.closed
            && self.coming == other.coming
            && self.accepted == other.accepted
    }

    /// Feeds a hash, which equal queues have in common.
    pub fn feed(&self, state: &mut FoldHasher) {
        for item in self.items.iter() {
            state.write_u64(*item);
        }
        state.write_u64(if self.closed { 1 } else { 0 });
        state.write_u64(self.coming.unwrap_or(0));
    }
}

impl<A: Allocator + Copy> Queue<A> {
    /// A copy.
    ///
    /// # Errors
    ///
    /// Where there is no memory.
    pub fn fork(&self, alloc: A) -> Result<Queue<A>, AllocError>
        ensures { IfOk result (λ q. q ≡ self.now) }
    {
        let (upper, lower) = self.items.as_slices();
        let mut items = Vec::with_capacity(alloc, self.items.len())?;
        items.extend_from_slice(upper)?;
        items.extend_from_slice(lower)?;
        Ok(Queue {
            items: VecDeque::from_vec(items),
            cap: self.cap,
            closed: self.closed,
            coming: self.coming,
            accepted: self.accepted,
        })
    }
}
