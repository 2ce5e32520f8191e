//! The whole explorer as a function of its arguments, its input and its two outputs.
ghost use Rattle.std.specs.Prelude.{◌≡◌, MatchResult, map, string_bytes};
ghost use Rattle.machine_replay.specs.Replays.{CanReplay};
ghost use Rattle.app_text.specs.KindNames.{queue_named};
ghost use Rattle.app_explore.specs.Listings.{MayStop, MayTellNothing, IsTold, TellsWanted};
ghost use Rattle.app_explore.specs.Requests.{IsRequest, IsWanted};
ghost use Rattle.app_explore.specs.Commands.{IsExplorerEnd, IsExplored, IsStopOf};
ghost use Rattle.app_explore.specs.Stops.{stop_status};

use crate::args::{Request, Wanted, parse_request};
use crate::faults::Stop;
use crate::limits::MOST_STATES;
use crate::listing::{draw_lanes, list_outcomes, list_schedule};
use crate::reading::read_program;
use crate::waits::{list_waits, wait_schedule};
use app_text::streams::{read_input, write_output};
use machine_explore::problem::Problem;
use machine_explore::program::Program;
use std::alloc::Allocator;
use std::io::{Read, Write};

/// Does what the arguments after the program's name say, and answers the status to end with.
///
/// Nothing is written but the whole text. A fault is told on `faults`. Where it cannot be written there, the status is the same.
pub fn command<A: Allocator, I: Read, O: Write, F: Write>(
    alloc: &A,
    args: &[String],
    input: &mut I,
    output: &mut O,
    faults: &mut F,
) -> u8
    ensures end { IsExplorerEnd (map string_bytes args.now) (I.remaining input.old) (O.contents output.old) (O.contents output.new) result }
    ensures quiet { result ≡ 0 → faults.new ≡ faults.old }
{
    match explore(alloc, args, input, output) {
        Ok(()) => 0,
        Err(stop) => tell(stop, faults),
    }
}

/// Tells why the explorer stops, and answers the status to end with.
pub fn tell<F: Write>(stop: Stop, faults: &mut F) -> u8
    ensures { result ≡ stop_status stop }
{
    let _ = writeln!(faults, "{stop}");
    stop.status()
}

// Reads the program that the input names, and writes what is asked for.
fn explore<A: Allocator, I: Read, O: Write>(
    alloc: &A,
    args: &[String],
    input: &mut I,
    output: &mut O,
) -> Result<(), Stop>
    ensures { MatchResult result
        (λ _. IsExplored (map string_bytes args.now) (I.remaining input.old) (O.contents output.old) (O.contents output.new))
        (IsStopOf (map string_bytes args.now) (I.remaining input.old) (O.contents output.old) (O.contents output.new)) }
{
    let request = parse_request(args)?;
    let bytes = read_input(alloc, input)?;
    let text = told(alloc, request, &bytes, MOST_STATES)?;
    write_output(output, text.as_bytes())?;
    Ok(())
}

/// What is told of the program that the text names, if it has no more states than this.
///
/// # Errors
///
/// `Line`, `NoMemory`, also where no queue may have the capacity, `TooManyStates`, `NoOutcome`, `NoWait`, and `NotShown`, which no program is known to meet.
#[tactic(auto, using(crate::proofs::Stopping::unread))]
pub fn told<'a, A: Allocator>(
    alloc: &'a A,
    request: Request,
    text: &[u8],
    most_states: usize,
) -> Result<String<&'a A>, Stop>
    requires { IsRequest request }
    ensures { MatchResult result (λ told. IsTold request text.now (string_bytes told)) (MayStop request text.now) }
{
    let program = read_program(alloc, text)?;
    let problem = problem_of(request, program, most_states);
    answer(alloc, &problem, request.wanted)
}

// The program on the queue that the request names, with as many states as are looked at.
fn problem_of<A: Allocator>(request: Request, program: Program<A>, most_states: usize) -> Problem<A>
    requires { IsRequest request }
    ensures kind { result.kind ≡ queue_named request.kind }
    ensures can { CanReplay result.kind }
    ensures refuses { result.refuses ≡ request.refuses }
    ensures program { result.program ≡ program }
    ensures limit { result.most_states ≡ most_states }
{
    Problem {
        kind: request.kind.kind(),
        refuses: request.refuses,
        program,
        most_states,
    }
}

/// What is told of the problem's program.
///
/// # Errors
///
/// As of `told`, without `Line`.
#[tactic(auto, using(crate::proofs::Stopping::searched))]
pub fn answer<A: Allocator + Copy>(
    alloc: A,
    problem: &Problem<A>,
    wanted: Wanted,
) -> Result<String<A>, Stop>
    requires can { CanReplay problem.now.kind }
    requires asked { IsWanted wanted }
    ensures { MatchResult result
        (λ text. TellsWanted problem.now.kind problem.now.refuses problem.now.program.before problem.now.program.parties.items wanted (string_bytes text))
        (MayTellNothing problem.now.kind problem.now.refuses problem.now.program.before problem.now.program.parties.items wanted) }
{
    match wanted {
        Wanted::Outcomes => Ok(list_outcomes(alloc, problem)?),
        Wanted::Schedule(number) => {
            list_schedule(alloc, problem, number)?.ok_or(Stop::NoOutcome(number))
        }
        Wanted::Lanes(number) => {
            draw_lanes(alloc, problem, number)?.ok_or(Stop::NoOutcome(number))
        }
        Wanted::Waits => Ok(list_waits(alloc, problem)?),
        Wanted::Wait(number) => {
            wait_schedule(alloc, problem, number)?.ok_or(Stop::NoWait(number))
        }
    }
}
