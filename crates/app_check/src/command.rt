//! The whole checker as a function of its arguments, its input and its two outputs.
ghost use Rattle.std.specs.Prelude.{◌≡◌, MatchResult, map, string_bytes};
ghost use Rattle.app_text.specs.Reading.{IsReading};
ghost use Rattle.app_check.specs.Answers.{stop_status};
ghost use Rattle.app_check.specs.Asked.{rules_of, IsAsked};
ghost use Rattle.app_check.specs.Commands.{IsAnswerTo, IsChecked, IsCheckerEnd, IsStopOf, IsUntold, asked_words};

use crate::answers::{Answer, answer_of};
use crate::asked::{Asked, parse_asked};
use crate::faults::Stop;
use crate::reading::read_history;
use app_text::streams::{read_input, write_output};
use std::alloc::Allocator;
use std::io::{Read, Write};

/// Does what the arguments after the program's name say, and answers the status to end with.
///
/// Nothing is written but the whole text. A fault is told on `faults`. Where it cannot be written there, the status is the same.
pub fn command<A: Allocator, I: Read, O: Write, F: Write>(
    alloc: &A,
    args: &[String],
    input: &mut I,
    output: &mut O,
    faults: &mut F,
) -> u8
    ensures { IsCheckerEnd (map string_bytes args.now) (I.remaining input.old) (O.contents output.old) (O.contents output.new) result }
{
    match check(alloc, args, input, output) {
        Ok(answer) => answer.status(),
        Err(stop) => tell(stop, faults),
    }
}

/// Tells why the checker stops, and answers the status to end with.
pub fn tell<F: Write>(stop: Stop, faults: &mut F) -> u8
    ensures { result ≡ stop_status stop }
{
    let _ = writeln!(faults, "{stop}");
    stop.status()
}

// Decides of the history that the input is, and writes the answer.
fn check<A: Allocator, I: Read, O: Write>(
    alloc: &A,
    args: &[String],
    input: &mut I,
    output: &mut O,
) -> Result<Answer, Stop>
    ensures { MatchResult result
        (IsChecked (map string_bytes args.now) (I.remaining input.old) (O.contents output.old) (O.contents output.new))
        (IsStopOf (map string_bytes args.now) (I.remaining input.old) (O.contents output.old) (O.contents output.new)) }
{
    let Some(asked) = asked_by(args) else {
        return Err(Stop::Usage);
    };
    let bytes = read_input(alloc, input)?;
    let (answer, text) = told(alloc, asked, &bytes)?;
    write_output(output, text.as_bytes())?;
    Ok(answer)
}

// The queue that the arguments ask for, if they ask for one.
fn asked_by(args: &[String]) -> Option<Asked>
    ensures { IsReading IsAsked asked_words (map string_bytes args.now) result }
{
    match args {
        [word] => parse_asked(word.as_str()),
        _ => None,
    }
}

// What is told of the history that the text is, on this queue.
fn told<'a, A: Allocator>(
    alloc: &'a A,
    asked: Asked,
    text: &[u8],
) -> Result<(Answer, String<&'a A>), Stop>
    ensures { MatchResult result (λ p. IsAnswerTo (rules_of asked) text.now p.0 (string_bytes p.1)) (IsUntold text.now) }
{
    let history = read_history(alloc, text)?;
    answer_of(alloc, asked.rules(), history.parties, &history.events)
}
