//! A queue as it is defined: a list, an optional capacity, a closed flag, at most one item on its way in, and a count of accepted items.
use crate::events::Item;
use crate::flaw::{Flaw, append};
use crate::moment::Moment;
use machine_replay::types::EffectKind;
use queue_steps::errors::{ForcePushError, PopError, PushError};
use queue_steps::model::{Call, Reply};
use queue_steps::sizes::{BLOCK_SLOTS, LIMIT};
use std::alloc::Global;
use std::mem;

/// A queue in one of its states.
#[derive(Drop)]
pub struct Queue {
    items: Vec<Item>,
    cap: Option<usize>,
    closed: bool,
    coming: Option<Item>,
    accepted: u64,
}

/// What a call has done to the queue so far.
#[derive(Clone, Copy)]
pub enum Deed {
    Nothing,
    /// This front is off, and the call's own item is on its way in.
    TookFront(Item),
    /// All that it does. This is to be its reply.
    All(Reply<Item>),
}

impl Queue {
    /// An empty open queue.
    pub fn new(alloc: Global, cap: Option<usize>) -> Queue {
        Queue {
            items: Vec::new(alloc),
            cap,
            closed: false,
            coming: None,
            accepted: 0,
        }
    }

    /// Its capacity.
    pub fn capacity(&self) -> Option<usize> {
        self.cap
    }

    /// Whether it is open.
    pub fn is_open(&self) -> bool {
        !self.closed
    }

    /// Its list, front first.
    pub fn items(&self) -> &[Item] {
        self.items.as_slice()
    }

    /// What replies may say of it now.
    pub fn moment(&self) -> Moment {
        Moment {
            cap: self.cap,
            len: self.items.len(),
            closed: self.closed,
            coming: self.coming.is_some(),
            accepted: self.accepted,
        }
    }

    /// How many blocks its items lie in, were it a chain.
    pub fn spanned(&self) -> u64 {
        let len = self.items.len() as u64;
        if len == 0 {
            return 0;
        }
        let first = self.accepted.wrapping_sub(len) / BLOCK_SLOTS;
        let last = self.accepted.wrapping_sub(1) / BLOCK_SLOTS;
        last.wrapping_sub(first).wrapping_add(1)
    }

    fn is_full(&self) -> bool {
        self.cap == Some(self.items.len())
    }

    // Whether an item may be accepted: a queue of one slot accepts without an end.
    fn is_below_its_limit(&self) -> bool {
        self.cap == Some(1) || self.accepted < LIMIT
    }

    fn may_append(&self) -> bool {
        !self.closed && self.coming.is_none() && !self.is_full() && self.is_below_its_limit()
    }

    fn may_replace(&self) -> bool {
        self.cap == Some(1) && !self.closed && self.is_full()
    }

    fn may_take_front(&self) -> bool {
        self.cap != Some(1) && self.is_full() && self.coming.is_none() && self.is_below_its_limit()
    }

    fn may_close_itself(&self) -> bool {
        self.cap != Some(1) && !self.closed && self.accepted == LIMIT
    }

    /// Lets a call that has done so much so far do this, and tells what it has done then.
    ///
    /// # Errors
    ///
    /// `Effect` where the queue or the call does not allow it, and `NoMemory`.
    pub fn apply(
        &mut self,
        effect: EffectKind,
        call: Call<Item>,
        done: Deed,
    ) -> Result<Deed, Flaw> {
        match (done, call) {
            (Deed::Nothing, Call::Push(item)) => self.apply_push(effect, item),
            (Deed::Nothing, Call::ForcePush(item)) => self.apply_force(effect, item),
            (Deed::Nothing, Call::Pop) if effect == EffectKind::Take => {
                let item = self.front_off()?;
                Ok(Deed::All(Reply::Pop(Ok(item))))
            }
            (Deed::Nothing, Call::Close) if effect == EffectKind::Close && !self.closed => {
                self.closed = true;
                Ok(Deed::All(Reply::Close(true)))
            }
            (Deed::TookFront(old), Call::ForcePush(item)) if effect == EffectKind::Arrive => {
                self.arrive(item, old)
            }
            _ => Err(Flaw::Effect),
        }
    }

    fn apply_push(&mut self, effect: EffectKind, item: Item) -> Result<Deed, Flaw> {
        match effect {
            EffectKind::Append if self.may_append() => {
                self.accept(item)?;
                Ok(Deed::All(Reply::Push(Ok(()))))
            }
            EffectKind::SelfClose if self.may_close_itself() => {
                self.closed = true;
                Ok(Deed::All(Reply::Push(Err(PushError::Closed(item)))))
            }
            _ => Err(Flaw::Effect),
        }
    }

    fn apply_force(&mut self, effect: EffectKind, item: Item) -> Result<Deed, Flaw> {
        match effect {
            EffectKind::Append if self.may_append() => {
                self.accept(item)?;
                Ok(Deed::All(Reply::ForcePush(Ok(None))))
            }
            EffectKind::Replace if self.may_replace() => {
                let old = self.front_off()?;
                self.accept(item)?;
                Ok(Deed::All(Reply::ForcePush(Ok(Some(old)))))
            }
            EffectKind::Front if self.may_take_front() => {
                self.coming = Some(item);
                Ok(Deed::TookFront(self.front_off()?))
            }
            EffectKind::SelfClose if self.may_close_itself() => {
                self.closed = true;
                Ok(Deed::All(Reply::ForcePush(Err(ForcePushError::Closed(item)))))
            }
            _ => Err(Flaw::Effect),
        }
    }

    fn arrive(&mut self, item: Item, old: Item) -> Result<Deed, Flaw> {
        if self.coming != Some(item) {
            return Err(Flaw::Effect);
        }
        self.coming = None;
        self.accept(item)?;
        Ok(Deed::All(Reply::ForcePush(Ok(Some(old)))))
    }

    /// Makes a call that may do something, whole and at one moment, and gives its reply.
    ///
    /// # Errors
    ///
    /// `Order` for a call that only looks, and `NoMemory`.
    pub fn make(&mut self, call: Call<Item>) -> Result<Reply<Item>, Flaw> {
        match call {
            Call::Push(item) => self.push(item),
            Call::ForcePush(item) => self.force_push(item),
            Call::Pop => Ok(Reply::Pop(self.pop())),
            Call::Close => Ok(Reply::Close(!mem::replace(&mut self.closed, true))),
            _ => Err(Flaw::Order),
        }
    }

    /// Whether it is as the other one is once the item on its way in there has arrived.
    pub fn is_settled(&self, other: &Queue) -> bool {
        let (arrived, coming) = self.items.split_at(other.items.len().min(self.items.len()));
        self.closed == other.closed
            && arrived == other.items.as_slice()
            && coming == other.coming.as_slice()
    }

    // Whether the call that asks finds the queue closed, which it may be by it.
    fn is_shut(&mut self) -> bool {
        self.closed = self.closed || !self.is_below_its_limit();
        self.closed
    }

    fn push(&mut self, item: Item) -> Result<Reply<Item>, Flaw> {
        if self.is_full() && !self.closed {
            return Ok(Reply::Push(Err(PushError::Full(item))));
        }
        if self.is_shut() {
            return Ok(Reply::Push(Err(PushError::Closed(item))));
        }
        self.accept(item)?;
        Ok(Reply::Push(Ok(())))
    }

    fn force_push(&mut self, item: Item) -> Result<Reply<Item>, Flaw> {
        if self.is_shut() {
            return Ok(Reply::ForcePush(Err(ForcePushError::Closed(item))));
        }
        let old = if self.is_full() {
            self.pop().ok()
        } else {
            None
        };
        self.accept(item)?;
        Ok(Reply::ForcePush(Ok(old)))
    }

    fn pop(&mut self) -> Result<Item, PopError> {
        match self.front_off() {
            Ok(item) => Ok(item),
            Err(_) if self.closed => Err(PopError::Closed),
            Err(_) => Err(PopError::Empty),
        }
    }

    fn front_off(&mut self) -> Result<Item, Flaw> {
        if self.items.is_empty() {
            return Err(Flaw::Effect);
        }
        Ok(self.items.remove(0))
    }

    fn accept(&mut self, item: Item) -> Result<(), Flaw> {
        append(&mut self.items, item)?;
        self.accepted = self.accepted.wrapping_add(1);
        Ok(())
    }
}
