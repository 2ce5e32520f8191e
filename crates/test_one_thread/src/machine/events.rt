//! Lists of events.
use machine_replay::types::Event;
use queue_steps::model::Call;
use std::process::Abort;

/// Appends that the party begins the call, and that it takes so many steps of it. Asserts that there is memory.
pub(crate) fn add<T: Drop>(
    rt: &impl Abort,
    events: &mut Vec<Event<T>>,
    party: usize,
    call: Call<T>,
    steps: u64,
) {
    events.push(Event::Begin(party, call)).expect(rt, "memory");
    add_steps(rt, events, party, steps);
}

/// Appends that the party takes so many steps. Asserts that there is memory.
pub(crate) fn add_steps<T: Drop>(
    rt: &impl Abort,
    events: &mut Vec<Event<T>>,
    party: usize,
    steps: u64,
) {
    for _ in 0..steps {
        events.push(Event::Step(party, true)).expect(rt, "memory");
    }
}
