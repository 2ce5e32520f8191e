//! What a hasher is fed with of a call. Calls that are the same feed it alike; where a call stands is left out, of which its operation says most.
use crate::calls::Running;
use queue_steps::steps::{Link, Op, Touch, Word};
use std::hash::{Hash, Hasher};

fn feed_word<H: Hasher>(word: Word<usize>, state: &mut H) {
    match word {
        Word::Lock => state.write_u8(0),
        Word::Head => state.write_u8(1),
        Word::Tail => state.write_u8(2),
        Word::Stamp(slot) => state.write_usize(slot),
        Word::State(block, slot) => {
            state.write_usize(block);
            state.write_usize(slot);
        }
    }
}

fn feed_link<H: Hasher>(link: Link<usize>, state: &mut H) {
    match link {
        Link::HeadBlock => state.write_u8(3),
        Link::TailBlock => state.write_u8(4),
        Link::Next(block) => state.write_usize(block),
    }
}

/// Feeds a hasher with an operation's kind, and then with that.
fn feed_value<H: Hasher>(kind: u8, word: Word<usize>, value: u64, state: &mut H) {
    state.write_u8(kind);
    feed_word(word, state);
    state.write_u64(value);
}

fn feed_op<H: Hasher>(op: Op<usize>, state: &mut H) {
    match op {
        Op::Load(word) => feed_value(0, word, 0, state),
        Op::Store(word, value) => feed_value(1, word, value, state),
        Op::Add(word, value) => feed_value(2, word, value, state),
        Op::Or(word, value) => feed_value(3, word, value, state),
        Op::And(word, value) => feed_value(4, word, value, state),
        Op::Exchange(word, from, to) => {
            feed_value(5, word, from, state);
            state.write_u64(to);
        }
        Op::LoadLink(link) => feed_link(link, state),
        Op::StoreLink(link, block) => {
            feed_link(link, state);
            state.write_usize(block);
        }
        Op::Install(block) => state.write_usize(block),
        Op::Ask => state.write_u8(6),
    }
}

fn feed_touch<H: Hasher>(touch: Touch, state: &mut H) {
    match touch {
        Touch::Nothing => state.write_u8(0),
        Touch::Put(slot) | Touch::Swap(slot) | Touch::Take(slot) => state.write_usize(slot),
    }
}

/// Feeds a hasher with a call.
fn feed_call<T: Hash, H: Hasher>(call: &Running<T>, state: &mut H) {
    feed_op(call.op, state);
    feed_touch(call.touch, state);
    call.carried.hash(state);
}

/// Feeds a hasher with the call that each party is in.
pub fn feed_calls<T: Hash, H: Hasher>(calls: &[Option<Running<T>>], state: &mut H) {
    for index in 0..calls.len() {
        match &calls[index] {
            Some(call) => feed_call(call, state),
            None => state.write_u8(7),
        }
    }
}
