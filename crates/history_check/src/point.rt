//! Where an order of the calls is, if the order of the values is given.
use crate::calls::Made;
use crate::recorded::Move;
use queue_steps::model::{Call, Reply};

/// How many values are in and out, and what else the calls to come depend on.
#[derive(Clone, Copy, PartialEq, Eq, Hash, Default)]
pub struct Point {
    /// How many values have entered.
    pub entered: usize,
    /// How many have left.
    pub left: usize,
    /// How many pops without an end have taken a value.
    pub spent: usize,
    /// Whether the queue is closed.
    pub closed: bool,
    /// Whether the next value is on its way in.
    pub coming: bool,
    /// The marks of the calls that have seen their reply and have not ended.
    pub seen: u64,
}

/// What a call is there for, if the order of the values is given.
#[derive(Clone, Copy, PartialEq)]
pub enum Role {
    /// It finds its reply right at some moment.
    Looks,
    /// It brings the value at this place.
    Brings(usize),
    /// It takes the value at this place.
    Takes(usize),
    /// It takes the value at the first place, and brings the one at the second.
    Displaces(usize, usize),
    /// It closes the queue.
    Closes,
    /// It does not end, so that nothing is asked of it.
    Unended,
}

impl Role {
    /// The role of a call that neither brings nor takes a value.
    pub fn without_value(made: Made) -> Role {
        match (made.call, made.reply) {
            (_, None) => Role::Unended,
            (Call::Close, Some(Reply::Close(true))) => Role::Closes,
            _ => Role::Looks,
        }
    }

    /// The role of a call that brings the value at this place, too.
    pub fn bringing(self, place: usize) -> Role {
        match self {
            Role::Takes(old) => Role::Displaces(old, place),
            _ => Role::Brings(place),
        }
    }

    /// The role of a call that takes the value at this place, too.
    pub fn taking(self, place: usize) -> Role {
        match self {
            Role::Brings(new) => Role::Displaces(place, new),
            _ => Role::Takes(place),
        }
    }
}

/// A call that waits until its reply is right, and its mark.
#[derive(Clone, Copy)]
pub struct Watch {
    /// Its place among the calls.
    pub index: usize,
    pub made: Made,
    pub mask: u64,
    /// The move by which it finds its reply right.
    pub answer: Move,
}

impl Point {
    /// The point at which these calls have seen their reply too.
    pub fn with_seen(self, mask: u64) -> Point {
        Point {
            seen: self.seen | mask,
            ..self
        }
    }

    /// The point at which these marks are free again.
    pub fn without_seen(self, mask: u64) -> Point {
        Point {
            seen: self.seen & !mask,
            ..self
        }
    }

    /// How many values are in the queue.
    pub fn count(self) -> usize {
        self.entered.saturating_sub(self.left)
    }

    /// Whether a call of this role has done its part, or has seen its reply, if this is its mark.
    pub fn has_done(self, role: Role, mask: u64) -> bool {
        match role {
            Role::Looks => self.seen & mask != 0,
            Role::Brings(place) => self.entered > place,
            Role::Takes(place) => self.left > place,
            Role::Displaces(old, new) => self.left > old && self.entered > new,
            Role::Closes => self.closed,
            Role::Unended => true,
        }
    }
}
