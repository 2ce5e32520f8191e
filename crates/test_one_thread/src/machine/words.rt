//! The words of a ring of two slots.
use crate::asserts::is;
use crate::machine::events::{add, add_steps};
use machine_replay::types::Event;
use machine_replay::words::{QueueWords, words_after};
use queue_steps::model::Call;
use queue_steps::sizes::STEPS_ALONE;
use queue_steps::steps::Kind;
use std::process::Abort;

/// Asserts the tail, the head and both stamps after these events.
fn has_words<R: Abort + AllocGlobal>(rt: &R, events: &[Event<u64>], words: [u64; 4]) {
    let events = events.to_vec(rt.alloc()).expect(rt, "memory");
    let QueueWords {
        lock: _,
        head,
        tail,
        stamps,
    } = words_after(rt.alloc(), Kind::Bounded(2), 2, events).expect(rt, "memory");
    let found = (tail, head, stamps.as_slice());
    is(rt, found, (words[0], words[1], &words[2..]));
}

/// The words on the way through a displacement: the tail is twice the position, and one more once the queue is closed.
#[test]
fn words_within_a_displacement(rt: HostRuntime) {
    let mut events = Vec::new(rt.alloc());
    add(&rt, &mut events, 0, Call::Push(1), STEPS_ALONE);
    add(&rt, &mut events, 0, Call::Push(2), STEPS_ALONE);
    has_words(&rt, &events, [4, 0, 1, 2]);
    add(&rt, &mut events, 0, Call::ForcePush(3), 3);
    has_words(&rt, &events, [4, 1, 1, 2]);
    add(&rt, &mut events, 1, Call::Close, STEPS_ALONE);
    has_words(&rt, &events, [5, 1, 1, 2]);
    add(&rt, &mut events, 1, Call::Pop, STEPS_ALONE);
    has_words(&rt, &events, [5, 2, 1, 3]);
    add(&rt, &mut events, 1, Call::Pop, STEPS_ALONE);
    add_steps(&rt, &mut events, 0, STEPS_ALONE);
    has_words(&rt, &events, [7, 2, 3, 3]);
}
