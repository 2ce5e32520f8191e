//! The arguments: what is asked for.
ghost use Rattle.std.specs.Prelude.{◌≡◌, ◌≢◌, ℕ, List, [], ◌∷◌, ◌++◌, false, codes, map, string_bytes};
ghost use Rattle.std.specs.Fmt.{decimal};
ghost use Rattle.app_text.specs.Reading.{IsReading};
ghost use Rattle.app_explore.specs.Parsing.{IsParsing};
ghost use Rattle.app_text.specs.KindNames.{kind_text, IsKindName};
ghost use Rattle.app_explore.specs.Usage.{IsKindFault};
ghost use Rattle.app_explore.specs.Requests.{IsOutcomeFault, IsRequestFault, IsWantedFault, IsWantedNameFault, request_words, refuse_words, wanted_words, IsRequest, IsWanted, IsOutcomeNumber, asks_for_blocks};

use crate::usage::UsageFault;
use app_text::args::{KindName, parse_kind};
use app_text::numbers::parse_number;

/// What is to be told of a program.
#[derive(Clone, Copy, PartialEq)]
pub enum Wanted {
    /// Every outcome, a line each.
    Outcomes,
    /// The lines of the schedule of the outcome of this number, counted from 1.
    Schedule(u64),
    /// A picture of that schedule, with a column for each party.
    Lanes(u64),
    /// Who waits for whom, a line each.
    Waits,
    /// The lines of the schedule of the wait of this number, counted from 1.
    Wait(u64),
}

/// What the arguments ask for.
#[derive(Clone, Copy, PartialEq)]
pub struct Request {
    /// The kind of the queue.
    pub kind: KindName,
    /// Whether each request for a block may also be refused. A queue without a capacity alone makes any.
    pub refuses: bool,
    /// What is to be told.
    pub wanted: Wanted,
}

/// The request that the arguments name.
pub fn parse_request(args: &[String]) -> Result<Request, UsageFault>
    ensures { IsParsing IsRequest request_words IsRequestFault (map string_bytes args.now) result }
{
    let [kind, rest @ ..] = args else {
        return Err(UsageFault::WordCount);
    };
    let kind = kind_of(kind.as_str())?;
    let (refuses, rest) = parse_refuses(rest);
    if refuses && !may_ask(kind) {
        return Err(UsageFault::Refusal);
    }
    let wanted = parse_wanted(rest)?;
    Ok(Request {
        kind,
        refuses,
        wanted,
    })
}

// The kind that this text names, or else why it names none.
fn kind_of(text: &str) -> Result<KindName, UsageFault>
    ensures { IsParsing IsKindName kind_text IsKindFault text.now result }
{
    match parse_kind(text) {
        Some(kind) => Ok(kind),
        None if text.starts_with("bounded:") => Err(UsageFault::Capacity),
        None => Err(UsageFault::Kind),
    }
}

// Whether a queue of this kind may ask for blocks.
fn may_ask(kind: KindName) -> bool
    ensures { result ≡ asks_for_blocks kind }
{
    match kind {
        KindName::Unbounded => true,
        KindName::Single | KindName::Bounded(_) => false,
    }
}

// Whether the first of these words lets blocks be refused, and the words behind that one.
fn parse_refuses(words: &[String]) -> (bool, &[String])
    ensures parted { map string_bytes words.now ≡ refuse_words result.0 ++ map string_bytes result.1.now }
    ensures missing { result.0 ≡ false → (rest : List (List ℕ)) → map string_bytes words.now ≢ codes "refuse" ∷ rest }
{
    match words {
        [word, rest @ ..] if word.as_str() == "refuse" => (true, rest),
        _ => (false, words),
    }
}

// What these words ask for.
fn parse_wanted(words: &[String]) -> Result<Wanted, UsageFault>
    ensures { IsParsing IsWanted wanted_words IsWantedFault (map string_bytes words.now) result }
{
    match words {
        [] => Ok(Wanted::Outcomes),
        [word] if word.as_str() == "waits" => Ok(Wanted::Waits),
        [word, number] => parse_outcome(word.as_str(), number.as_str()),
        [word, ..] => Err(name_fault(word.as_str())),
    }
}

// Why this word and others behind it ask for nothing.
fn name_fault(word: &str) -> UsageFault
    ensures { IsWantedNameFault word.now result }
{
    match word {
        "schedule" | "lanes" | "waits" => UsageFault::WordCount,
        _ => UsageFault::Wanted,
    }
}

// What these two words ask for.
fn parse_outcome(word: &str, number: &str) -> Result<Wanted, UsageFault>
    ensures { IsParsing IsWanted wanted_words IsWantedFault (word.now ∷ number.now ∷ []) result }
{
    match word {
        "schedule" => Ok(Wanted::Schedule(outcome_number(number)?)),
        "lanes" => Ok(Wanted::Lanes(outcome_number(number)?)),
        "waits" => Ok(Wanted::Wait(outcome_number(number)?)),
        _ => Err(UsageFault::Wanted),
    }
}

// The number of an outcome or a wait that this text names, or else that it names none.
fn outcome_number(text: &str) -> Result<u64, UsageFault>
    ensures { IsParsing IsOutcomeNumber decimal IsOutcomeFault text.now result }
{
    match parse_outcome_number(text) {
        Some(number) => Ok(number),
        None => Err(UsageFault::Number),
    }
}

// The number of an outcome or a wait that this text names.
fn parse_outcome_number(text: &str) -> Option<u64>
    ensures { IsReading IsOutcomeNumber decimal text.now result }
{
    let number = parse_number(text.as_bytes())?;
    if number == 0 {
        return None;
    }
    Some(number)
}
