//! What is recorded of a run.
use crate::asserts::is;
use crate::machine::events::{add, add_steps};
use history_check::decide::{Verdict, decide};
use history_check::recorded::{Event as Recorded, Rules};
use law_recorded::record::replay_recorded;
use machine_replay::types::Event;
use queue_steps::model::Call;
use queue_steps::sizes::STEPS_ALONE;
use queue_steps::steps::Kind;
use std::process::Abort;

/// More words than the stages of any of these histories take up.
const MOST_WORDS: usize = 1 << 20;

/// What is decided of a history.
#[derive(Clone, Copy, Debug, Drop, PartialEq)]
enum Decided {
    Legal,
    NotLegal(usize),
    TooMany,
}

/// What is decided of a history on a ring of two slots.
fn judged<R: Abort + AllocGlobal>(rt: &R, at_once: bool, history: &[Recorded]) -> Decided {
    let rules = Rules {
        cap: Some(2),
        at_once,
    };
    match decide(rt.alloc(), rules, 2, history, MOST_WORDS).expect(rt, "memory") {
        Verdict::Legal(_) => Decided::Legal,
        Verdict::NotLegal(count) => Decided::NotLegal(count),
        Verdict::TooMany => Decided::TooMany,
    }
}

/// A forced push that displaces, between whose two effects the other party takes a look: each of the four calls is recorded, and the history is legal. It is not where a displacement is one step, since the look counts one item.
#[test]
fn a_look_within_a_displacement(rt: HostRuntime) {
    let mut events: Vec<Event<u64>> = Vec::new(rt.alloc());
    add(&rt, &mut events, 0, Call::Push(1), STEPS_ALONE);
    add(&rt, &mut events, 0, Call::Push(2), STEPS_ALONE);
    add(&rt, &mut events, 0, Call::ForcePush(3), 3);
    add(&rt, &mut events, 1, Call::Len, STEPS_ALONE);
    add_steps(&rt, &mut events, 0, STEPS_ALONE);
    let history = replay_recorded(rt.alloc(), Kind::Bounded(2), 2, &events).expect(&rt, "memory");
    is(&rt, history.len(), 8);
    is(&rt, judged(&rt, false, &history), Decided::Legal);
    is(&rt, judged(&rt, true, &history), Decided::NotLegal(7));
}
