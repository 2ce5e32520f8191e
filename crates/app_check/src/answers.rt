//! What is told of a history.
ghost use Rattle.std.specs.Prelude.{◌≡◌, ◌++◌, IfOk, MatchResult, OnOk, string_bytes};
ghost use Rattle.app_check.specs.Answers.{IsAnswer, IsUndecided, answer_status, not_legal_text};
ghost use Rattle.app_check.specs.Orders.{lines_in, move_text, moves_text, order_text};

use crate::faults::Stop;
use history_check::decide::{Verdict, decide};
use history_check::recorded::{Event, Move, Rules};
use std::alloc::{AllocError, Allocator};
use std::fmt::Write;

/// How many words the stages beside each other, and the moves to them, may take up: 1 GiB.
pub const MOST_WORDS: usize = 1 << 27;

/// What is told of a history.
#[derive(Clone, Copy)]
pub enum Answer {
    /// It is legal.
    Legal,
    /// It is not: so many of its first events are the shortest beginning that is not legal.
    NotLegal(usize),
}

impl Answer {
    /// The status that the checker ends with.
    pub fn status(self) -> u8
        ensures { result ≡ answer_status self }
    {
        match self {
            Answer::Legal => 0,
            Answer::NotLegal(_) => 1,
        }
    }
}

/// What is told of these events of so many parties, and its text: of a legal history with an order that shows it.
///
/// # Errors
///
/// `NoMemory`, and `TooManyStages`.
pub fn answer_of<A: Allocator + Copy>(
    alloc: A,
    rules: Rules,
    parties: usize,
    events: &[Event],
) -> Result<(Answer, String<A>), Stop>
    ensures { MatchResult result (λ p. IsAnswer rules parties events.now p.0 (string_bytes p.1)) IsUndecided }
{
    match decide(alloc, rules, parties, events, MOST_WORDS)? {
        Verdict::Legal(moves) => Ok((Answer::Legal, legal_text(alloc, &moves)?)),
        Verdict::NotLegal(count) => Ok((Answer::NotLegal(count), not_legal_text(alloc, count)?)),
        Verdict::TooMany => Err(Stop::TooManyStages),
    }
}

// The text of a legal history, with this order.
fn legal_text<A: Allocator>(alloc: A, moves: &[Move]) -> Result<String<A>, AllocError>
    ensures { IfOk result (λ text. string_bytes text ≡ order_text moves.now) }
{
    let mut text = String::new(alloc);
    writeln!(text, "legal")?;
    write_moves(moves, &mut text)?;
    Ok(text)
}

// The text of a history of which so many events are the shortest beginning that is not legal.
fn not_legal_text<A: Allocator>(alloc: A, count: usize) -> Result<String<A>, AllocError>
    ensures { IfOk result (λ text. string_bytes text ≡ not_legal_text count) }
{
    let mut text = String::new(alloc);
    writeln!(text, "not legal")?;
    writeln!(text, "line {count}: nothing explains it")?;
    Ok(text)
}

// Appends a line for each move of a call.
fn write_moves<A: Allocator>(moves: &[Move], text: &mut String<A>) -> Result<(), AllocError>
    ensures { OnOk result (string_bytes text.new ≡ string_bytes text.old ++ moves_text 0 moves.now) }
{
    let mut after = 0;
    let mut rest = moves;
    while let Some((taken, later)) = rest.split_first() {
        write_move(after, *taken, text)?;
        after += lines_in(*taken);
        rest = later;
    }
    Ok(())
}

// How many lines of the history a move takes.
fn lines_in(taken: Move) -> usize
    ensures { result ≡ lines_in taken }
{
    match taken {
        Move::Event => 1,
        Move::See(_, _)
        | Move::Act(_, _)
        | Move::Part(_, _)
        | Move::Arrive(_)
        | Move::Displace(_, _) => 0,
    }
}

// Appends the line of a move, if it is one of a call: after which line of the history it is made, in whose call, and what it is.
fn write_move<A: Allocator>(
    after: usize,
    taken: Move,
    text: &mut String<A>,
) -> Result<(), AllocError>
    ensures { OnOk result (string_bytes text.new ≡ string_bytes text.old ++ move_text after taken) }
{
    match taken {
        Move::Event => Ok(()),
        Move::See(party, _) => writeln!(text, "{after} {party} sees"),
        Move::Act(party, _) => writeln!(text, "{after} {party} acts"),
        Move::Part(party, _) => writeln!(text, "{after} {party} takes"),
        Move::Arrive(party) => writeln!(text, "{after} {party} arrives"),
        Move::Displace(party, _) => writeln!(text, "{after} {party} displaces"),
    }
}
