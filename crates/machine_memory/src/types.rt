//! What the machine is given, and what it tells of a run.
use queue_steps::model::{Call, Reply};
use std::alloc::{Allocator, Global};

/// What happens next: a party begins a call, or takes one step of the call that it is in.
#[derive(Clone, Copy, Debug, Drop, PartialEq)]
pub enum Event<T> {
    /// The party begins the call.
    Begin(usize, Call<T>),
    /// The party takes one step. The second part says whether a request for a block is granted.
    Step(usize, bool),
}

/// What a step did to the queue, without its values.
#[derive(Clone, Copy, Debug, Drop, PartialEq)]
pub enum EffectKind {
    /// An item is put at the end of the list.
    Append,
    /// The front is taken off.
    Take,
    /// The one item of a queue of one slot gives way to another.
    Replace,
    /// The front of a full queue is taken off, and another item is on its way in.
    Front,
    /// The item on its way in is put at the end of the list.
    Arrive,
    /// A call of `close` closes the queue.
    Close,
    /// The queue closes itself, having accepted all that it ever will.
    SelfClose,
}

/// What is told of one event.
#[derive(Clone, Copy, Debug, Drop, PartialEq)]
pub enum Told<T> {
    /// It did not fit, and nothing happened.
    Skipped,
    /// It ran: what it did to the queue, and the reply that ended the party's call there.
    Ran(Option<EffectKind>, Option<Reply<T>>),
}

/// What is told of one event, and whether the allocator had what it asked for.
#[derive(Clone, Copy, Debug, Drop, PartialEq)]
pub struct Handled<T> {
    /// What is told of the event.
    pub told: Told<T>,
    /// Whether the allocator granted the block that the event asked for. True where it asked for none, and where the event refuses it.
    pub is_met: bool,
}

/// How many blocks a run held at most.
#[derive(Clone, Copy, Debug, Drop, PartialEq)]
pub struct Peak {
    /// The greatest number of blocks at any moment, the opening included.
    pub blocks: usize,
    /// The bound on the number of blocks at the first moment that had so many.
    pub bound: usize,
}

/// What is told of a run.
#[derive(Debug, Drop)]
pub struct Replay<T, A: Allocator = Global> {
    /// The number of an event, its party, and the reply that ended the party's call there.
    pub replies: Vec<(usize, usize, Reply<T>), A>,
    /// The number of an event, its party, and what it did to the queue.
    pub effects: Vec<(usize, usize, EffectKind), A>,
    /// The numbers of the events that did not fit.
    pub skipped: Vec<usize, A>,
    /// The list at the end, front first, with the items that their push has not yet written.
    pub left: Vec<T, A>,
    /// The blocks that the run held at most.
    pub peak: Peak,
}
