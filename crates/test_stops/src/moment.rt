//! What is so of a queue at one moment, and what a call may be answered by it.
use crate::events::Item;
use queue_steps::errors::{ForcePushError, PopError, PushError};
use queue_steps::model::{Call, Reply};
use queue_steps::sizes::BLOCK_SLOTS;

/// What replies speak of, at one moment.
#[derive(Clone, Copy)]
pub struct Moment {
    pub cap: Option<usize>,
    pub len: usize,
    pub closed: bool,
    /// Whether an item is on its way in.
    pub coming: bool,
    /// How many items were accepted.
    pub accepted: u64,
}

impl Moment {
    fn is_full(self) -> bool {
        self.cap == Some(self.len)
    }

    // Whether no item is there or on its way in, and the queue is closed or open as this says.
    fn is_drained(self, closed: bool) -> bool {
        self.len == 0 && !self.coming && self.closed == closed
    }

    // Whether the next item of an open queue without a capacity needs a block: it is the first one, or the last one of a block.
    fn wants_block(self) -> bool {
        let behind_blocks = self.accepted % BLOCK_SLOTS;
        self.cap.is_none()
            && !self.closed
            && (self.accepted == 0 || behind_blocks == BLOCK_SLOTS - 1)
    }

    /// Whether this reply to the call is right now, if the call has no effect.
    pub fn answers(self, call: Call<Item>, reply: Reply<Item>) -> bool {
        match (call, reply) {
            (Call::Push(item), Reply::Push(Err(refusal))) => self.refuses_push(item, refusal),
            (Call::ForcePush(item), Reply::ForcePush(Err(refusal))) => {
                self.refuses_force(item, refusal)
            }
            (Call::Pop, Reply::Pop(Err(PopError::Empty))) => self.is_drained(false),
            (Call::Pop, Reply::Pop(Err(PopError::Closed))) => self.is_drained(true),
            (Call::Close, Reply::Close(false)) => self.closed,
            (Call::IsClosed, Reply::IsClosed(closed)) => self.closed == closed,
            (Call::IsEmpty, Reply::IsEmpty(empty)) => (self.len == 0) == empty,
            (Call::IsFull, Reply::IsFull(full)) => self.is_full() == full,
            (Call::Len, Reply::Len(len)) => self.len == len,
            (Call::Capacity, Reply::Capacity(cap)) => self.cap == cap,
            _ => false,
        }
    }

    fn refuses_push(self, item: Item, refusal: PushError<Item>) -> bool {
        let is_right = match refusal {
            PushError::Full(_) => !self.closed && self.is_full(),
            PushError::Closed(_) => self.closed,
            PushError::NoMemory(_) => self.wants_block(),
        };
        is_right && refusal.into_inner() == item
    }

    fn refuses_force(self, item: Item, refusal: ForcePushError<Item>) -> bool {
        let is_right = match refusal {
            ForcePushError::Closed(_) => self.closed,
            ForcePushError::NoMemory(_) => self.wants_block(),
        };
        is_right && refusal.into_inner() == item
    }
}

/// Whether this reply to the call is right at one of these moments, if the call has no effect.
pub fn may_answer(moments: &[Moment], call: Call<Item>, reply: Reply<Item>) -> bool {
    for moment in moments {
        if moment.answers(call, reply) {
            return true;
        }
    }
    false
}
