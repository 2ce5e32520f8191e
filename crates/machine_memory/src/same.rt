//! Whether two values are the same, which a yes proves.
ghost use Rattle.std.specs.Prelude.{◌≡◌, true};

use crate::blocks::BlockPlace;
use crate::calls::Running;
use crate::places::{chain_kept, chain_label, ring_kept, ring_label};
use queue_steps::model::CallKind;
use queue_steps::steps::{
    CallView, ChainLocal, Link, Local, Op, RingLocal, SlotLocal, Touch, Word,
};

/// Values that can be told to be the same.
pub trait Same {
    /// Whether the two are the same. A no claims nothing.
    fn same(&self, other: &Self) -> bool
        ensures { result ≡ true → self.now ≡ other.now };
}

impl Same for u64 {
    fn same(&self, other: &u64) -> bool {
        *self == *other
    }
}

impl<X: Same> Same for Option<X> {
    fn same(&self, other: &Option<X>) -> bool {
        match (self, other) {
            (None, None) => true,
            (Some(this), Some(other)) => this.same(other),
            _ => false,
        }
    }
}

impl Same for Touch {
    fn same(&self, other: &Touch) -> bool {
        *self == *other
    }
}

impl Same for usize {
    fn same(&self, other: &usize) -> bool {
        *self == *other
    }
}

impl Same for Word<usize> {
    fn same(&self, other: &Word<usize>) -> bool {
        match (self, other) {
            (Word::Lock, Word::Lock) => true,
            (Word::Head, Word::Head) => true,
            (Word::Tail, Word::Tail) => true,
            (Word::Stamp(slot), Word::Stamp(other)) => *slot == *other,
            (Word::State(block, slot), Word::State(other, place)) => {
                *block == *other && *slot == *place
            }
            _ => false,
        }
    }
}

impl Same for Link<usize> {
    fn same(&self, other: &Link<usize>) -> bool {
        match (self, other) {
            (Link::HeadBlock, Link::HeadBlock) => true,
            (Link::TailBlock, Link::TailBlock) => true,
            (Link::Next(block), Link::Next(other)) => *block == *other,
            _ => false,
        }
    }
}

impl Same for Op<usize> {
    fn same(&self, other: &Op<usize>) -> bool {
        match (self, other) {
            (Op::Load(word), Op::Load(other)) => word.same(other),
            (Op::Store(word, value), Op::Store(other, like)) => word.same(other) && *value == *like,
            (Op::Add(word, value), Op::Add(other, like)) => word.same(other) && *value == *like,
            (Op::Or(word, value), Op::Or(other, like)) => word.same(other) && *value == *like,
            (Op::And(word, value), Op::And(other, like)) => word.same(other) && *value == *like,
            (Op::Exchange(word, from, to), Op::Exchange(other, like, same)) => {
                word.same(other) && *from == *like && *to == *same
            }
            (Op::LoadLink(link), Op::LoadLink(other)) => link.same(other),
            (Op::StoreLink(link, block), Op::StoreLink(other, like)) => {
                link.same(other) && *block == *like
            }
            (Op::Install(block), Op::Install(other)) => *block == *other,
            (Op::Ask, Op::Ask) => true,
            _ => false,
        }
    }
}

impl Same for CallKind {
    fn same(&self, other: &CallKind) -> bool {
        *self == *other
    }
}

impl Same for SlotLocal {
    fn same(&self, other: &SlotLocal) -> bool {
        *self == *other
    }
}

impl Same for CallView {
    fn same(&self, other: &CallView) -> bool {
        *self == *other
    }
}

impl<X: Same, Y: Same> Same for (X, Y) {
    fn same(&self, other: &(X, Y)) -> bool {
        self.0.same(&other.0) && self.1.same(&other.1)
    }
}

impl<X: Same, Y: Same, Z: Same> Same for (X, Y, Z) {
    fn same(&self, other: &(X, Y, Z)) -> bool {
        self.0.same(&other.0) && self.1.same(&other.1) && self.2.same(&other.2)
    }
}

// Two calls at steps of one label that remember the same are at the same place.
impl Same for RingLocal {
    fn same(&self, other: &RingLocal) -> bool {
        ring_label(*self) == ring_label(*other) && ring_kept(*self).same(&ring_kept(*other))
    }
}

impl Same for ChainLocal<usize> {
    fn same(&self, other: &ChainLocal<usize>) -> bool {
        chain_label(*self) == chain_label(*other) && chain_kept(*self).same(&chain_kept(*other))
    }
}

impl Same for Local<usize> {
    fn same(&self, other: &Local<usize>) -> bool {
        match (self, other) {
            (Local::Begin(this), Local::Begin(other)) => this.same(other),
            (Local::Slot(this), Local::Slot(other)) => this.same(other),
            (Local::Ring(this), Local::Ring(other)) => this.same(other),
            (Local::Chain(this), Local::Chain(other)) => this.same(other),
            _ => false,
        }
    }
}

impl<T: Same> Same for Running<T> {
    fn same(&self, other: &Running<T>) -> bool {
        self.op.same(&other.op)
            && self.touch.same(&other.touch)
            && self.local.same(&other.local)
            && self.carried.same(&other.carried)
    }
}

impl<T: Same> Same for BlockPlace<T> {
    fn same(&self, other: &BlockPlace<T>) -> bool {
        self.state == other.state && self.item.same(&other.item)
    }
}

/// Whether the two lists are the same.
pub fn all_same<X: Same>(these: &[X], others: &[X]) -> bool
    ensures { result ≡ true → these.now ≡ others.now }
{
    if these.len() != others.len() {
        return false;
    }
    for index in 0..these.len() {
        if !these[index].same(&others[index]) {
            return false;
        }
    }
    true
}
