//! The calls of a line, which are read one by one.
ghost use Rattle.std.specs.Prelude.{◌≡◌, ◌==◌, [], ◌∷◌, position, IfOk, MatchOption};
ghost use Rattle.app_text.specs.Calls.{IsCallOfWord};
ghost use Rattle.app_text.specs.Reading.{IsReading};
ghost use Rattle.app_explore.specs.Parsing.{IsParsing};
ghost use Rattle.app_explore.specs.Faults.{IsCallsFault};
ghost use Rattle.app_explore.specs.Programs.{IsCalls, calls_text, parts_of, spaced_call};

use crate::read_faults::LineFault;
use app_text::lines::Line;
use machine_explore::program::Calls;
use machine_explore::sequence::Sequence;
use queue_steps::model::Call;
use std::alloc::{AllocError, Allocator};

/// The calls that this text names, if they are no more than `most`, or else why it names none.
pub fn read_calls<A: Allocator>(
    alloc: A,
    most: usize,
    text: &[u8],
) -> Result<Result<Calls<A>, LineFault>, AllocError>
    ensures { IfOk result (λ found. IsParsing (IsCalls most) calls_text (IsCallsFault most) text.now found) }
{
    let mut calls = Vec::new(alloc);
    let mut rest = text;
    for _ in 0..most {
        let (part, after) = first_part(rest);
        let Some(call) = parse_spaced(part) else {
            return Ok(Err(LineFault::Call));
        };
        calls.push(call)?;
        match after {
            Some(more) => rest = more,
            None => return Ok(Ok(Sequence::of(calls))),
        }
    }
    Ok(Err(LineFault::TooManyCalls(most)))
}

// The call that this text names behind a space.
fn parse_spaced(text: &[u8]) -> Option<Call<u64>>
    ensures { IsReading IsCallOfWord spaced_call text.now result }
{
    let word = text.strip_prefix(b" ".as_slice())?;
    Call::<u64>::parse(word)
}

// What stands before the first semicolon, and the text behind it, if there is one.
fn first_part(text: &[u8]) -> (&[u8], Option<&[u8]>)
    ensures { MatchOption result.1
        (parts_of text.now ≡ result.0.now ∷ [])
        (λ rest. parts_of text.now ≡ result.0.now ∷ parts_of rest.now) }
{
    match semicolon(text) {
        Some(end) => (&text[..end], Some(&text[end + 1..])),
        None => (text, None),
    }
}

// Where the first semicolon is.
fn semicolon(text: &[u8]) -> Option<usize>
    ensures { result ≡ position (λ b. b == 59) text.now }
{
    text.iter().position(|b| *b == b';')
}
