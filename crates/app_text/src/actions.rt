//! The lines of a replay: what a party does.
ghost use Rattle.std.specs.Prelude.{◌≡◌, ◌==◌, None, Some, position, MatchOption};
ghost use Rattle.app_text.specs.Actions.{action_text, IsAction, replay_line_text, IsReplayLine};
ghost use Rattle.app_text.specs.Reading.{IsReading};
ghost use Rattle.app_text.specs.Spaces.{parted};

use crate::lines::Line;
use crate::numbers::parse_number;
use queue_steps::model::Call;

/// What a party does.
#[derive(Clone, Copy, Drop)]
pub enum Action {
    /// It begins a call.
    Call(Call<u64>),
    /// It takes one step, and a request for a block is granted.
    Step,
    /// It takes one step, and a request for a block is refused.
    Refuse,
    /// It takes as many steps as a call alone can need, and requests are granted.
    Run,
}

/// A line of a replay.
#[derive(Clone, Copy, Drop)]
pub struct ReplayLine {
    /// The number of the party, which need not be there.
    pub party: u64,
    /// What it does.
    pub action: Action,
}

impl Line for ReplayLine {
    ghost is_value = { IsReplayLine };

    ghost text_of = { replay_line_text };

    fn parse(line: &[u8]) -> Option<ReplayLine> {
        let (digits, rest) = part_at_space(line)?;
        let party = parse_number(digits)?;
        let action = parse_action(rest)?;
        Some(ReplayLine { party, action })
    }
}

// What the party does by this text.
fn parse_action(text: &[u8]) -> Option<Action>
    ensures { IsReading IsAction action_text text.now result }
{
    if text == b"step".as_slice() {
        return Some(Action::Step);
    }
    if text == b"refuse".as_slice() {
        return Some(Action::Refuse);
    }
    if text == b"run".as_slice() {
        return Some(Action::Run);
    }
    match Call::<u64>::parse(text) {
        Some(call) => Some(Action::Call(call)),
        None => None,
    }
}

/// What stands before and behind the first space.
pub fn part_at_space(line: &[u8]) -> Option<(&[u8], &[u8])>
    ensures { MatchOption result (parted line.now ≡ None) (λ p. parted line.now ≡ Some (p.0.now, p.1.now)) }
{
    let end = space(line)?;
    Some((&line[..end], &line[end + 1..]))
}

// Where the first space is.
fn space(line: &[u8]) -> Option<usize>
    ensures { result ≡ position (λ b. b == 32) line.now }
{
    line.iter().position(|b| *b == b' ')
}
