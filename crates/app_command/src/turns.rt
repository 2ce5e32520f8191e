//! What the lines of a replay ask of the parties.
ghost use Rattle.std.specs.Prelude.{◌≡◌};
ghost use Rattle.app_command.specs.Turns.{event_of};

use app_text::actions::{Action, ReplayLine};
use machine_replay::types::Event;

/// What one line of a replay asks of one party, with the number of that line. A line `run` asks for the same turn again and again.
#[derive(Clone, Copy, Drop)]
pub struct Turn {
    /// The number of the line, counted from 1.
    pub line: usize,
    /// The party, and what the line asks of it.
    pub said: ReplayLine,
}

/// The event that the line makes happen.
pub fn event_of(said: ReplayLine) -> Event<u64>
    ensures { result ≡ event_of said }
{
    let party = said.party as usize;
    match said.action {
        Action::Call(call) => Event::Begin(party, call),
        Action::Step | Action::Run => Event::Step(party, true),
        Action::Refuse => Event::Step(party, false),
    }
}
