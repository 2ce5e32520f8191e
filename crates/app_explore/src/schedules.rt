//! How a schedule is printed, as the lines of a replay.
ghost use Rattle.std.specs.Prelude.{◌≡◌, ◌++◌, [], ◌∷◌, ◌<◌, ◌≤◌, drop, length, MatchOption, OnOk, string_bytes};
ghost use Rattle.app_text.specs.Actions.{replay_line_text};
ghost use Rattle.app_explore.specs.Schedules.{MakeAll, before_lines, ends_call, is_step_of, lines_text, move_lines, party_of, plain_line, row_length, schedule_text};

use app_text::actions::{Action, ReplayLine};
use app_text::calls::ShownCall;
use machine_explore::trace::TraceEntry;
use machine_replay::types::{Event, Told};
use queue_steps::model::Call;
use queue_steps::sizes::STEPS_ALONE;
use std::alloc::{AllocError, Allocator};

/// Appends the lines of a schedule: each of the calls before the parties begin is begun by party 0 and run to its end, and then
/// come the moves. Two or more steps in a row that end a call are one line.
pub fn write_schedule<A: Allocator, B: Allocator>(
    before: &[Call<u64>],
    moves: &[TraceEntry<B>],
    text: &mut String<A>,
) -> Result<(), AllocError>
    ensures written { OnOk result (string_bytes text.new ≡ string_bytes text.old ++ schedule_text before.now moves.now) }
    ensures made { MakeAll (move_lines 0 moves.now) moves.now }
{
    write_before(before, text)?;
    write_moves(moves, text)
}

// Appends the lines of the calls before the parties begin.
fn write_before<A: Allocator>(before: &[Call<u64>], text: &mut String<A>) -> Result<(), AllocError>
    ensures { OnOk result (string_bytes text.new ≡ string_bytes text.old ++ lines_text (before_lines before.now)) }
{
    for call in before {
        write_line(line_of(0, Action::Call(*call)), text)?;
        write_line(line_of(0, Action::Run), text)?;
    }
    Ok(())
}

// Appends the lines of the moves.
fn write_moves<A: Allocator, B: Allocator>(
    moves: &[TraceEntry<B>],
    text: &mut String<A>,
) -> Result<(), AllocError>
    ensures { OnOk result (string_bytes text.new ≡ string_bytes text.old ++ lines_text (move_lines 0 moves.now)) }
{
    let mut rest = moves;
    while let Some((line, count)) = first_line(rest) {
        write_line(line, text)?;
        (_, rest) = rest.split_at(count);
    }
    Ok(())
}

// The first line of moves, and how many of them it is for.
fn first_line<B: Allocator>(moves: &[TraceEntry<B>]) -> Option<(ReplayLine, usize)>
    ensures { MatchOption result
        (moves.now ≡ [])
        (λ p. (0 < p.1) × (p.1 ≤ length moves.now) × (move_lines 0 moves.now ≡ p.0 ∷ move_lines 0 (drop p.1 moves.now))) }
{
    let first = moves.first()?;
    let event = first.event();
    let party = party_of(event);
    let count = row_length(party, moves);
    if count >= 2 && count as u64 <= STEPS_ALONE {
        return Some((line_of(party, Action::Run), count));
    }
    Some((plain_line(event), 1))
}

// How many steps of this party come first, of which the last ends its call; 0 where none does.
fn row_length<B: Allocator>(party: usize, moves: &[TraceEntry<B>]) -> usize
    ensures { result ≡ row_length 0 party moves.now }
{
    for (index, taken) in moves.iter().enumerate() {
        if !is_step_of(party, taken.event()) {
            return 0;
        }
        if ends_call(taken.told()) {
            return index + 1;
        }
    }
    0
}

// Whether this tells the end of a call.
fn ends_call(told: Told<u64>) -> bool
    ensures { result ≡ ends_call told }
{
    match told {
        Told::Ran(_, Some(_)) => true,
        Told::Ran(_, None) | Told::Skipped => false,
    }
}

// Whether the event is a step of this party at which requests are granted.
fn is_step_of(party: usize, event: Event<u64>) -> bool
    ensures { result ≡ is_step_of party event }
{
    match event {
        Event::Step(stepping, true) => stepping == party,
        Event::Step(_, false) | Event::Begin(_, _) => false,
    }
}

// The party of an event.
pub(crate) fn party_of(event: Event<u64>) -> usize
    ensures { result ≡ party_of event }
{
    match event {
        Event::Begin(party, _) | Event::Step(party, _) => party,
    }
}

// The line of one event.
fn plain_line(event: Event<u64>) -> ReplayLine
    ensures { result ≡ plain_line event }
{
    match event {
        Event::Begin(party, call) => line_of(party, Action::Call(call)),
        Event::Step(party, true) => line_of(party, Action::Step),
        Event::Step(party, false) => line_of(party, Action::Refuse),
    }
}

// The line by which the party does this.
fn line_of(party: usize, action: Action) -> ReplayLine
    ensures { result ≡ record { party = party; action = action } }
{
    ReplayLine {
        party: party as u64,
        action,
    }
}

// Appends a line of a replay.
fn write_line<A: Allocator>(line: ReplayLine, text: &mut String<A>) -> Result<(), AllocError>
    ensures { OnOk result (string_bytes text.new ≡ string_bytes text.old ++ replay_line_text line ++ 10 ∷ []) }
{
    let party = line.party;
    match line.action {
        Action::Call(call) => writeln!(text, "{party} {}", ShownCall(call)),
        Action::Step => writeln!(text, "{party} step"),
        Action::Refuse => writeln!(text, "{party} refuse"),
        Action::Run => writeln!(text, "{party} run"),
    }
}
