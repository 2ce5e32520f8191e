//! Queues as stops and lists of events find them: their kinds, and what they hold.
ghost use Rattle.machine_replay.specs.Replays.{CanReplay};

use crate::events::{Events, add_call, numbered};
use crate::flaw::Flaw;
use queue_steps::model::Call;
use queue_steps::sizes::{BLOCK_SLOTS, WAIT_FREE_STEPS};
use queue_steps::steps::Kind;

/// Which queue.
#[derive(Clone, Copy, Debug)]
pub enum Shape {
    /// One slot.
    Single,
    /// A ring of two slots.
    Pair,
    /// A ring of three slots.
    Triple,
    /// A chain of blocks.
    Chain,
}

impl Shape {
    /// The one that this word names.
    pub fn named(word: &str) -> Option<Shape> {
        match word {
            "single" => Some(Shape::Single),
            "bounded:2" => Some(Shape::Pair),
            "bounded:3" => Some(Shape::Triple),
            "unbounded" => Some(Shape::Chain),
            _ => None,
        }
    }

    /// Its kind in the machine.
    pub fn kind(self) -> Kind
        ensures { CanReplay result }
    {
        match self {
            Shape::Single => Kind::Single,
            Shape::Pair => Kind::Bounded(2),
            Shape::Triple => Kind::Bounded(3),
            Shape::Chain => Kind::Unbounded,
        }
    }

    /// Its capacity.
    pub fn capacity(self) -> Option<usize> {
        match self {
            Shape::Single => Some(1),
            Shape::Pair => Some(2),
            Shape::Triple => Some(3),
            Shape::Chain => None,
        }
    }
}

/// What a queue holds where a case begins: so many items were pushed, and so many of them popped; and whether it was closed then.
#[derive(Clone, Copy, Debug)]
pub struct Start {
    pub pushed: u64,
    pub popped: u64,
    pub closed: bool,
}

/// How many steps a push takes at most where the party is alone.
const PUSH_STEPS: u64 = 8;

/// How many a push takes at most that is neither a queue's first nor a block's last.
const USUAL_PUSH_STEPS: u64 = 4;

/// How many a pop takes at most where the party is alone, but for the pop of a block's last item.
const POP_STEPS: u64 = 6;

/// How many the push takes at most before which so many items were pushed.
fn push_steps(before: u64) -> u64 {
    if before == 0 || before % BLOCK_SLOTS == BLOCK_SLOTS - 1 {
        PUSH_STEPS
    } else {
        USUAL_PUSH_STEPS
    }
}

impl Start {
    /// The events by which party 0 brings an empty queue there.
    pub fn reach(self, events: &mut Events) -> Result<(), Flaw> {
        for before in 0..self.pushed {
            let item = numbered(before.wrapping_add(1));
            add_call(events, 0, Call::Push(item), push_steps(before), true)?;
        }
        for _ in 0..self.popped {
            add_call(events, 0, Call::Pop, POP_STEPS, true)?;
        }
        if self.closed {
            add_call(events, 0, Call::Close, WAIT_FREE_STEPS, true)?;
        }
        Ok(())
    }
}
