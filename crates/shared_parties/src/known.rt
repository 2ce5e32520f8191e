//! What a seat at the table of a shared queue knows, and what it is at. No value of these types is made.

use queue_steps::model::{Call, Effect};
use queue_steps::steps::{Local, Op, Touch};
use std::collections::LinkedList;

/// What a party knows, or two that are being brought together: the queue's capacity, a beginning of the one history, another one of which it was told,
/// its own places in the history, the places of a second party that it stands for too, how many parties it counts for, how many more it was counted for,
/// its share of all parties, and that of the second one.
pub struct Known<T> {
    pub cap: Option<usize>,
    pub seen: LinkedList<Effect<T>>,
    pub second_seen: LinkedList<Effect<T>>,
    pub mine: LinkedList<usize>,
    pub second_places: LinkedList<usize>,
    pub parties: usize,
    pub surplus: usize,
    pub share: (usize, usize),
    pub second_share: (usize, usize),
}

/// A call on its way, between two of its steps: the step that it does next and what it carries, its effects and their places so far, what its party had
/// seen and done when it began, its party's share, and the slots that it has.
pub struct InCall<T> {
    pub call: Call<T>,
    pub local: Local<usize>,
    pub touch: Touch,
    pub op: Op<usize>,
    pub carried: Option<T>,
    pub effects: LinkedList<Effect<T>>,
    pub places: LinkedList<usize>,
    pub since: LinkedList<Effect<T>>,
    pub before: LinkedList<usize>,
    pub share: (usize, usize),
    pub lends: LinkedList<(usize, Option<T>)>,
}

/// What a seat is at: nothing, or a call on its way.
pub enum Work<T> {
    Nothing,
    Calls(InCall<T>),
}

/// What a seat knows, and what it is at.
pub struct CallState<T> {
    pub known: Known<T>,
    pub work: Work<T>,
}
