//! Lists of events.
use crate::flaw::{Flaw, append};
use machine_replay::types::Event;
use queue_steps::model::Call;

/// An item of the queues that are tried: a number, four times. Its size and alignment give a block a layout that no list of a run has.
pub type Item = [u128; 4];

/// The item of this number.
pub fn numbered(number: u64) -> Item {
    [number as u128; 4]
}

/// A list of events that grows.
pub type Events = Vec<Event<Item>>;

/// Appends that the party takes so many steps, at each of which a block is granted or refused.
pub fn add_steps(events: &mut Events, party: usize, count: u64, granted: bool) -> Result<(), Flaw> {
    for _ in 0..count {
        append(events, Event::Step(party, granted))?;
    }
    Ok(())
}

/// Appends that the party begins the call, and that it takes so many steps, at each of which a block is granted or refused.
pub fn add_call(
    events: &mut Events,
    party: usize,
    call: Call<Item>,
    count: u64,
    granted: bool,
) -> Result<(), Flaw> {
    append(events, Event::Begin(party, call))?;
    add_steps(events, party, count, granted)
}
