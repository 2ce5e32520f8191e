//! The program that the input names.
ghost use Rattle.std.specs.Prelude.{◌≡◌, ◌++◌, [], ◌∷◌, codes, length, IfOk, MatchOption, MatchResult};
ghost use Rattle.app_text.specs.Lines.{lines_of};
ghost use Rattle.app_explore.specs.Parsing.{IsParsing};
ghost use Rattle.app_explore.specs.Faults.{IsPartyFault};
ghost use Rattle.app_explore.specs.Programs.{before_lines, party_line, IsBefore, IsPartyCalls};
ghost use Rattle.app_explore.specs.Reads.{IsReadAs, IsProgramFault, HasNoBefore};

use crate::calls::read_calls;
use crate::limits::{MOST_CALLS, MOST_CALLS_BEFORE, MOST_PARTIES};
use crate::read_faults::{LineFault, ReadFault};
use app_text::lines::next_line;
use machine_explore::program::{Calls, Program};
use machine_explore::sequence::Sequence;
use std::alloc::{AllocError, Allocator};

/// The program whose lines these are.
///
/// # Errors
///
/// `Unreadable` with the number of the first line up to which no program's lines go so, or of the line behind the last where the
/// lines end too early; and `NoMemory`.
pub fn read_program<A: Allocator + Copy>(alloc: A, text: &[u8]) -> Result<Program<A>, ReadFault>
    ensures { MatchResult result
        (λ program. IsReadAs (lines_of text.now) program.before program.parties.items)
        (IsProgramFault (lines_of text.now)) }
{
    let Some((spelled, rest)) = line_before(text) else {
        return read_parties(alloc, Sequence::of(Vec::new(alloc)), text);
    };
    match read_calls(alloc, MOST_CALLS_BEFORE, spelled)? {
        Ok(before) => read_parties(alloc, before, rest),
        Err(why) => Err(ReadFault::Unreadable(1, why)),
    }
}

// What the first line has behind `before:`, and the text behind that line.
fn line_before(text: &[u8]) -> Option<(&[u8], &[u8])>
    ensures { MatchOption result
        (HasNoBefore (lines_of text.now))
        (λ p. lines_of text.now ≡ (codes "before:" ++ p.0.now) ∷ lines_of p.1.now) }
{
    let (line, rest) = next_line(text)?;
    let spelled = line.strip_prefix(b"before:".as_slice())?;
    Some((spelled, rest))
}

// The program with these calls before the parties begin, whose other lines this text has.
fn read_parties<A: Allocator + Copy>(
    alloc: A,
    before: Calls<A>,
    text: &[u8],
) -> Result<Program<A>, ReadFault>
    requires calls { IsBefore before }
    requires single { before ≡ [] → HasNoBefore (lines_of text.now) }
    ensures { MatchResult result
        (λ program. IsReadAs (before_lines before ++ lines_of text.now) program.before program.parties.items)
        (IsProgramFault (before_lines before ++ lines_of text.now)) }
{
    let taken = count_lines(&before);
    let mut parties = Vec::new(alloc);
    let mut rest = text;
    while let Some((line, after)) = next_line(rest) {
        let calls = match read_party(alloc, parties.len(), line)? {
            Ok(calls) => calls,
            Err(why) => return Err(ReadFault::Unreadable(taken + parties.len() + 1, why)),
        };
        parties.push(calls)?;
        rest = after;
    }
    if parties.is_empty() {
        return Err(ReadFault::Unreadable(taken + 1, LineFault::Party));
    }
    Ok(Program { before, parties })
}

// How many lines the calls take that are made before the parties begin.
fn count_lines<A: Allocator>(before: &Calls<A>) -> usize
    ensures { result ≡ length (before_lines before.now) }
{
    if before.len() == 0 { 0 } else { 1 }
}

// The calls of the party of this number, if this is its line, or else why it is not.
fn read_party<A: Allocator>(
    alloc: A,
    number: usize,
    line: &[u8],
) -> Result<Result<Calls<A>, LineFault>, AllocError>
    ensures { IfOk result (λ found. IsParsing (IsPartyCalls number) (party_line number) (IsPartyFault number) line.now found) }
{
    if number >= MOST_PARTIES {
        return Ok(Err(LineFault::TooManyParties));
    }
    let mark = [b'0' + number as u8, b':'];
    match line.strip_prefix(mark.as_slice()) {
        Some(spelled) => read_calls(alloc, MOST_CALLS, spelled),
        None => Ok(Err(LineFault::Party)),
    }
}
