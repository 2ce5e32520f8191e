//! A replay: calls and single steps of several parties, what each did, and the items that are left.
ghost use Rattle.std.specs.Prelude.{◌≡◌, [], ◌∷◌, ◌++◌, replicate, IfOk, OnOk, MatchResult, string_bytes};
ghost use Rattle.queue_steps.specs.declared.sizes.TheConstants.{STEPS_ALONE};
ghost use Rattle.machine_replay.specs.MachineRuns.{IsSomeMachineRun};
ghost use Rattle.app_text.specs.Actions.{replay_line_text, IsReplayLine};
ghost use Rattle.app_text.specs.KindNames.{IsKindName};
ghost use Rattle.app_text.specs.declared.actions.Action.TheVariants.{Run};
ghost use Rattle.app_command.specs.Runs.{IsRun, IsRunFault};
ghost use Rattle.app_command.specs.Reports.{IsReport, peak_text};
ghost use Rattle.app_command.specs.Left.{left_text};
ghost use Rattle.app_command.specs.Takes.{Takes};
ghost use Rattle.app_command.specs.Turns.{turn_count, turn_text, turns_from};

use crate::turns::{Turn, event_of};
use app_text::actions::{Action, ReplayLine};
use app_text::args::KindName;
use app_text::effects::ShownEffect;
use app_text::faults::Fault;
use app_text::items::write_items;
use app_text::lines::read_lines;
use app_text::replies::ReplyText;
use app_text::streams::{read_input, write_output};
use machine_replay::machine_run::MachineRun;
use machine_replay::types::{Peak, Told};
use queue_steps::sizes::STEPS_ALONE;
use std::alloc::{AllocError, Allocator};
use std::io::{Read, Write};

/// Reads the lines of a replay, runs them on a queue of this kind that so many parties share, and writes what happened, the greatest
/// number of blocks of a queue without a capacity, and what is left.
///
/// # Errors
///
/// `InputFailed`, then `Unreadable`, then `OutputFailed`, and `NoMemory` wherever it is met, as where no queue may have the capacity.
/// On `OutputFailed` a beginning of the right output may be written.
pub fn replay<A: Allocator, I: Read, O: Write>(
    alloc: &A,
    kind: KindName,
    parties: usize,
    input: &mut I,
    output: &mut O,
) -> Result<(), Fault>
    requires { IsKindName kind }
    ensures { MatchResult result
        (λ _. IsRun IsReplayLine replay_line_text (IsReport kind parties)
        (I.remaining input.old) (O.contents output.old) (O.contents output.new))
        (IsRunFault IsReplayLine replay_line_text (IsReport kind parties)
        (I.remaining input.old) (O.contents output.old) (O.contents output.new)) }
{
    let bytes = read_input(alloc, input)?;
    let lines = read_lines::<ReplayLine, &A>(alloc, &bytes)?;
    let Ok(text) = report(alloc, kind, parties, &lines) else {
        return Err(Fault::NoMemory);
    };
    write_output(output, text.as_bytes())
}

/// What a replay of these lines prints.
pub fn report<'a, A: Allocator>(
    alloc: &'a A,
    kind: KindName,
    parties: usize,
    lines: &[ReplayLine],
) -> Result<String<&'a A>, AllocError>
    requires { IsKindName kind }
    ensures { IfOk result (λ text. IsReport kind parties lines.now (string_bytes text)) }
{
    let mut run = MachineRun::new(alloc, kind.kind(), parties, 0)?;
    let mut text = String::new(alloc);
    take_lines(alloc, &mut run, lines, &mut text)?;
    let ended = run.end(alloc)?;
    write_peak(kind, ended.peak, &mut text)?;
    write_left(&ended.left, &mut text)?;
    Ok(text)
}

// Appends the line that tells of the peak, if a queue of this kind has it.
fn write_peak<A: Allocator>(
    kind: KindName,
    peak: Peak,
    text: &mut String<A>,
) -> Result<(), AllocError>
    ensures { OnOk result (string_bytes text.new ≡ string_bytes text.old ++ peak_text kind peak) }
{
    match kind {
        KindName::Unbounded => writeln!(text, "blocks {} of {}", peak.blocks, peak.bound),
        _ => Ok(()),
    }
}

// Gives the parties the turns that the lines ask for, and appends what is told of each.
fn take_lines<A: Allocator + Copy, B: Allocator>(
    alloc: A,
    run: &mut MachineRun<u64, A>,
    lines: &[ReplayLine],
    text: &mut String<B>,
) -> Result<(), AllocError>
    requires { IsSomeMachineRun run.old }
    ensures { OnOk result (Takes (turns_from 1 lines.now) run.old (string_bytes text.old) run.new (string_bytes text.new)) }
{
    for (index, said) in lines.iter().enumerate() {
        let turn = Turn {
            line: index + 1,
            said: *said,
        };
        take_line(alloc, run, turn, text)?;
    }
    Ok(())
}

// Gives a party the turns that a line asks for.
fn take_line<A: Allocator + Copy, B: Allocator>(
    alloc: A,
    run: &mut MachineRun<u64, A>,
    turn: Turn,
    text: &mut String<B>,
) -> Result<(), AllocError>
    requires { IsSomeMachineRun run.old }
    ensures { OnOk result (Takes (replicate (turn_count turn.said.action) turn) run.old (string_bytes text.old) run.new (string_bytes text.new)) }
{
    match turn.said.action {
        Action::Run => take_run(alloc, run, turn, text),
        _ => take_turn(alloc, run, turn, text),
    }
}

// Gives a party as many turns as a call alone can need. Those behind the end of its call would be skipped without a word, so they are not made.
fn take_run<A: Allocator + Copy, B: Allocator>(
    alloc: A,
    run: &mut MachineRun<u64, A>,
    turn: Turn,
    text: &mut String<B>,
) -> Result<(), AllocError>
    requires comes { IsSomeMachineRun run.old }
    requires action { turn.said.action ≡ Run }
    ensures { OnOk result (Takes (replicate STEPS_ALONE turn) run.old (string_bytes text.old) run.new (string_bytes text.new)) }
{
    for _ in 0..STEPS_ALONE {
        if !run.is_in_call(turn.said.party as usize) {
            return Ok(());
        }
        take_turn(alloc, run, turn, text)?;
    }
    Ok(())
}

// Gives a party one turn.
fn take_turn<A: Allocator + Copy, B: Allocator>(
    alloc: A,
    run: &mut MachineRun<u64, A>,
    turn: Turn,
    text: &mut String<B>,
) -> Result<(), AllocError>
    requires { IsSomeMachineRun run.old }
    ensures { OnOk result (Takes (turn ∷ []) run.old (string_bytes text.old) run.new (string_bytes text.new)) }
{
    run.make_room()?;
    let told = run.handle(alloc, event_of(turn.said));
    write_turn(turn, told, text)
}

// Appends what is told of one turn.
fn write_turn<A: Allocator>(
    turn: Turn,
    told: Told<u64>,
    text: &mut String<A>,
) -> Result<(), AllocError>
    ensures { OnOk result (string_bytes text.new ≡ string_bytes text.old ++ turn_text turn told) }
{
    let line = turn.line;
    let party = turn.said.party;
    match told {
        Told::Skipped => match turn.said.action {
            Action::Run => Ok(()),
            _ => writeln!(text, "{line} {party} skipped"),
        },
        Told::Ran(effect, reply) => {
            if let Some(kind) = effect {
                writeln!(text, "{line} {party} {}", ShownEffect(kind))?;
            }
            if let Some(reply) = reply {
                writeln!(text, "{line} {party} {}", ReplyText(reply))?;
            }
            Ok(())
        }
    }
}

// Appends the line that tells of the items that are left.
fn write_left<A: Allocator>(items: &[u64], text: &mut String<A>) -> Result<(), AllocError>
    ensures { OnOk result (string_bytes text.new ≡ string_bytes text.old ++ left_text items.now) }
{
    text.push_str("left")?;
    write_items(items, text)?;
    text.push('\n')
}
